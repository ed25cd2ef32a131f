// The areas that a caller lends: records of two-byte fields, one after the other, and zeros behind them. An area is lent as bytes with a place or a
// count beside it, as the host lends it; who reads many records takes them as one list (`list`).
#![tactic(auto)]

pub mod list; // a list of records that is lent for reading

ghost use Rattle.std.specs.Prelude.{ℕ, ◌≡◌, ◌++◌, ◌∷◌, [], ◌+◌, ◌*◌, ◌-◌, ◌≤◌, eqb, length, take};
ghost use Rattle.std.proofs.lemmas.List.Edits.{sets};
ghost use Rattle.area.specs.Bytes.{two, bytes, zeros, field_at};
ghost use Rattle.area.specs.Records.{state_width, rule_width, entry_width, expected_width, fault_width, most_states, most_rules, most_others};
ghost use Rattle.area.specs.Records.{state_bytes, rule_bytes, entry_bytes, expected_bytes, fault_bytes, state_at, rule_at, entry_at, expected_at, fault_at};
ghost use Rattle.area.specs.Areas.{room, Pushed, PushedText, move_up, inserted};
ghost use Rattle.area.specs.Contents.{Format, Sized, state_format, rule_format, entry_format, text_format, expected_format, fault_format};
ghost use Rattle.area.specs.Names.{area_number};
ghost use Rattle.area.specs.Operation.{operation_number, OperationIs};
ghost use Rattle.area.specs.declared.AreaName.{AreaName};
ghost use Rattle.area.specs.declared.AreaName.TheVariants.{States, Rules, Entries, Text, Expected, Faults};
ghost use Rattle.area.specs.Laws.{state_sized, rule_sized, entry_sized, text_sized, expected_sized, fault_sized};

// The areas that a host lends.
#[derive(Clone, Copy, PartialEq, Eq, Debug)]
pub enum AreaName {
    States = 1,
    Rules,
    Entries,
    Text,
    Expected,
    Faults,
}

// The number that hosts know it by.
impl From<AreaName> for u16 {
    ghost from_gives = { λ name number. number ≡ area_number name };

    fn from(name: AreaName) -> u16 {
        name as u16
    }
}

// There was no room in the area.
#[derive(Clone, Copy, PartialEq, Eq, Debug)]
pub struct AreaFull(pub AreaName);

#[derive(Clone, Copy)]
pub struct State {
    pub start: u16,
    pub end: u16,
    pub exclusive: u16,
}

#[derive(Clone, Copy)]
pub struct Rule {
    pub has_id: u16,
    pub id: u16,
    pub named: u16,
    pub span_start: u16,
    pub span_end: u16,
    pub name_from: u16,
    pub name_length: u16,
    pub place: u16,
    pub text_from: u16,
    pub text_length: u16,
    pub list_from: u16,
    pub list_count: u16,
    pub operation: u16,
    pub target: u16,
}

impl Rule {
    // Whether it has a name. The field may be any number: all but 1 are none.
    pub fn is_named(&self) -> bool
        ensures { result ≡ eqb self.now.named 1 }
    {
        self.named == 1
    }

    // Where its name ends.
    pub fn name_end(&self) -> usize
        ensures { result ≡ self.now.name_from + self.now.name_length }
    {
        self.name_from as usize + self.name_length as usize
    }
}

// Where a rule's text stands: place 0 is the source, 1 the rewritten text.
#[derive(Clone, Copy)]
pub struct RuleText {
    pub place: u16,
    pub from: u16,
    pub length: u16,
}

// What a rule does with the stack of states, by its operation.
#[derive(Clone, Copy, PartialEq, Eq, Debug)]
pub enum StartStateOperation {
    ReplaceStack = 1,
    Push,
    Pop,
}

impl From<StartStateOperation> for u16 {
    ghost from_gives = { λ operation number. number ≡ operation_number operation };

    fn from(operation: StartStateOperation) -> u16 {
        operation as u16
    }
}

impl StartStateOperation {
    // That of a rule's field, which may be any number: all but these do nothing.
    pub fn from_field(field: u16) -> Option<StartStateOperation>
        ensures { OperationIs field result }
    {
        match field {
            1 => Some(StartStateOperation::ReplaceStack),
            2 => Some(StartStateOperation::Push),
            3 => Some(StartStateOperation::Pop),
            _ => None,
        }
    }
}

#[derive(Clone, Copy)]
pub struct Expected {
    pub start: u16,
    pub end: u16,
}

#[derive(Clone, Copy)]
pub struct Fault {
    pub number: u16,
    pub kind: u16,
    pub start: u16,
    pub end: u16,
}

// ---- fields: two bytes, the low one first

#[tactic(auto, unfolding(crate::specs::Bytes::two))]
pub fn write_field(area: &mut [u8], at: usize, value: u16)
    requires { at + 2 ≤ length area.old }
    ensures { area.new ≡ sets area.old at (two value) }
{
    let [low, high] = value.to_le_bytes();
    area[at] = low;
    area[at + 1] = high;
}

#[tactic(auto, unfolding(crate::specs::Bytes::field_at))]
pub fn read_field(area: &[u8], at: usize) -> u16
    requires { at + 2 ≤ length area.now }
    ensures { result ≡ field_at area.now at }
{
    u16::from_le_bytes([area[at], area[at + 1]])
}

// ---- records

// What stands in an area one after the other, each as many bytes. Each record has fields of its own, at the places of the C interface, which stand
// beside their names: read as one array of fields, each name would be written twice, in an order to be compared by eye.
pub trait Record: Copy {
    ghost format: { Format Self };

    ghost NAME: { AreaName };

    ghost WIDTH: { ℕ };

    ghost MOST: { ℕ };

    const NAME: AreaName;

    // How many bytes a record has.
    const WIDTH: usize;

    // How many records an area may have.
    const MOST: usize;

    // Record k of an area.
    fn read(area: &[u8], k: usize) -> Self
        requires { k * format.width + format.width ≤ length area.now }
        ensures { result ≡ format.read area.now k };

    // The same, written.
    fn write(self, area: &mut [u8], k: usize)
        requires { k * format.width + format.width ≤ length area.old }
        ensures { area.new ≡ sets area.old (k * format.width) (format.write self) };

    ghost sized: { Sized format NAME WIDTH MOST };
}

impl Record for State {
    ghost format = { state_format };

    ghost NAME = { States };

    ghost WIDTH = { state_width };

    ghost MOST = { most_states };

    ghost sized = { state_sized };

    const NAME: AreaName = AreaName::States;

    const WIDTH: usize = 6;

    const MOST: usize = 64;

    #[tactic(auto, unfolding(crate::specs::Records::state_at, crate::specs::Records::state_of, crate::specs::Bytes::field_from))]
    fn read(area: &[u8], k: usize) -> State {
        let at = k * Self::WIDTH;
        State {
            start: read_field(area, at),
            end: read_field(area, at + 2),
            exclusive: read_field(area, at + 4),
        }
    }

    #[tactic(auto, unfolding(crate::specs::Bytes::two, crate::specs::Bytes::bytes, crate::specs::Records::state_fields))]
    fn write(self, area: &mut [u8], k: usize) {
        let at = k * Self::WIDTH;
        write_field(area, at, self.start);
        write_field(area, at + 2, self.end);
        write_field(area, at + 4, self.exclusive);
    }
}

impl Record for Rule {
    ghost format = { rule_format };

    ghost NAME = { Rules };

    ghost WIDTH = { rule_width };

    ghost MOST = { most_rules };

    ghost sized = { rule_sized };

    const NAME: AreaName = AreaName::Rules;

    const WIDTH: usize = 28;

    const MOST: usize = 2048;

    #[tactic(auto, unfolding(crate::specs::Records::rule_at, crate::specs::Records::rule_of, crate::specs::Bytes::field_from))]
    fn read(area: &[u8], k: usize) -> Rule {
        let at = k * Self::WIDTH;
        Rule {
            has_id: read_field(area, at),
            id: read_field(area, at + 2),
            named: read_field(area, at + 4),
            span_start: read_field(area, at + 6),
            span_end: read_field(area, at + 8),
            name_from: read_field(area, at + 10),
            name_length: read_field(area, at + 12),
            place: read_field(area, at + 14),
            text_from: read_field(area, at + 16),
            text_length: read_field(area, at + 18),
            list_from: read_field(area, at + 20),
            list_count: read_field(area, at + 22),
            operation: read_field(area, at + 24),
            target: read_field(area, at + 26),
        }
    }

    #[tactic(auto, unfolding(crate::specs::Bytes::two, crate::specs::Bytes::bytes, crate::specs::Records::rule_fields))]
    fn write(self, area: &mut [u8], k: usize) {
        let at = k * Self::WIDTH;
        write_field(area, at, self.has_id);
        write_field(area, at + 2, self.id);
        write_field(area, at + 4, self.named);
        write_field(area, at + 6, self.span_start);
        write_field(area, at + 8, self.span_end);
        write_field(area, at + 10, self.name_from);
        write_field(area, at + 12, self.name_length);
        write_field(area, at + 14, self.place);
        write_field(area, at + 16, self.text_from);
        write_field(area, at + 18, self.text_length);
        write_field(area, at + 20, self.list_from);
        write_field(area, at + 22, self.list_count);
        write_field(area, at + 24, self.operation);
        write_field(area, at + 26, self.target);
    }
}

// A list entry: the id of a state.
impl Record for u16 {
    ghost format = { entry_format };

    ghost NAME = { Entries };

    ghost WIDTH = { entry_width };

    ghost MOST = { most_others };

    ghost sized = { entry_sized };

    const NAME: AreaName = AreaName::Entries;

    const WIDTH: usize = 2;

    const MOST: usize = 65535;

    #[tactic(auto, unfolding(crate::specs::Records::entry_at, crate::specs::Bytes::field_from))]
    fn read(area: &[u8], k: usize) -> u16 {
        read_field(area, k * Self::WIDTH)
    }

    #[tactic(auto, unfolding(crate::specs::Bytes::two, crate::specs::Bytes::bytes, crate::specs::Records::entry_fields))]
    fn write(self, area: &mut [u8], k: usize) {
        write_field(area, k * Self::WIDTH, self);
    }
}

impl Record for Expected {
    ghost format = { expected_format };

    ghost NAME = { Expected };

    ghost WIDTH = { expected_width };

    ghost MOST = { most_others };

    ghost sized = { expected_sized };

    const NAME: AreaName = AreaName::Expected;

    const WIDTH: usize = 4;

    const MOST: usize = 65535;

    #[tactic(auto, unfolding(crate::specs::Records::expected_at, crate::specs::Records::expected_of, crate::specs::Bytes::field_from))]
    fn read(area: &[u8], k: usize) -> Expected {
        let at = k * Self::WIDTH;
        Expected {
            start: read_field(area, at),
            end: read_field(area, at + 2),
        }
    }

    #[tactic(auto, unfolding(crate::specs::Bytes::two, crate::specs::Bytes::bytes, crate::specs::Records::expected_fields))]
    fn write(self, area: &mut [u8], k: usize) {
        let Expected { start, end } = self;
        let at = k * Self::WIDTH;
        write_field(area, at, start);
        write_field(area, at + 2, end);
    }
}

impl Record for Fault {
    ghost format = { fault_format };

    ghost NAME = { Faults };

    ghost WIDTH = { fault_width };

    ghost MOST = { most_others };

    ghost sized = { fault_sized };

    const NAME: AreaName = AreaName::Faults;

    const WIDTH: usize = 8;

    const MOST: usize = 65535;

    #[tactic(auto, unfolding(crate::specs::Records::fault_at, crate::specs::Records::fault_of, crate::specs::Bytes::field_from))]
    fn read(area: &[u8], k: usize) -> Fault {
        let at = k * Self::WIDTH;
        Fault {
            number: read_field(area, at),
            kind: read_field(area, at + 2),
            start: read_field(area, at + 4),
            end: read_field(area, at + 6),
        }
    }

    #[tactic(auto, unfolding(crate::specs::Bytes::two, crate::specs::Bytes::bytes, crate::specs::Records::fault_fields))]
    fn write(self, area: &mut [u8], k: usize) {
        let at = k * Self::WIDTH;
        write_field(area, at, self.number);
        write_field(area, at + 2, self.kind);
        write_field(area, at + 4, self.start);
        write_field(area, at + 6, self.end);
    }
}

// A byte of text.
impl Record for u8 {
    ghost format = { text_format };

    ghost NAME = { Text };

    ghost WIDTH = { 1 };

    ghost MOST = { most_others };

    ghost sized = { text_sized };

    const NAME: AreaName = AreaName::Text;

    const WIDTH: usize = 1;

    const MOST: usize = 65535;

    fn read(area: &[u8], k: usize) -> u8 {
        area[k]
    }

    fn write(self, area: &mut [u8], k: usize) {
        area[k] = self;
    }
}

// ---- records, appended

// Whether m records of a width more, behind n, fit an area of that length and do not pass a limit. The limit comes first, so that the product
// cannot wrap.
pub fn has_room_of_width(length: usize, width: usize, limit: usize, n: usize, m: usize) -> bool
    requires { (width ≤ 28) × (limit ≤ 65535) }
    ensures { result ≡ room width limit length n m }
{
    if limit < n {
        return false;
    }
    if limit - n < m {
        return false;
    }
    (n + m) * width <= length
}

// The same of the records of an area.
pub fn has_room<R: Record>(length: usize, n: usize, m: usize) -> bool
    ensures { result ≡ room R.format.width R.format.most length n m }
{
    has_room_of_width(length, R::WIDTH, R::MOST, n, m)
}

// A record behind n others.
pub fn push<R: Record>(area: &mut [u8], n: u16, x: R) -> Result<u16, AreaFull>
    ensures { Pushed R.format.name R.format.width R.format.most 1 (R.format.write x) area.old n result area.new }
{
    let count = n as usize;
    if has_room::<R>(area.len(), count, 1) {
        x.write(area, count);
        return Ok(n + 1);
    }
    Err(AreaFull(R::NAME))
}

// ---- text, appended

// A text behind n bytes: all of it or none.
#[tactic(auto, using(crate::proofs::Lists::put_part), unfolding(crate::specs::Areas::room))]
pub fn push_text(area: &mut [u8], n: u16, text: &[u8]) -> Result<u16, AreaFull>
    ensures { PushedText text.now area.old n result area.new }
{
    let count = n as usize;
    let more = text.len();
    if has_room::<u8>(area.len(), count, more) {
        area[count..count + more].copy_from_slice(text);
        return Ok((count + more) as u16);
    }
    Err(AreaFull(AreaName::Text))
}

// ---- zeros

pub fn clear(area: &mut [u8])
    ensures { area.new ≡ zeros (length area.old) }
{
    area.fill(0);
}

// ---- a record, inserted

// A record before the first m bytes, which move up.
fn insert_front<R: Record>(tail: &mut [u8], m: usize, x: R)
    requires { m + R.format.width ≤ length tail.old }
    ensures { tail.new ≡ move_up R.format.width m (R.format.write x) tail.old }
{
    tail.copy_within(0..m, R::WIDTH);
    x.write(tail, 0);
}

// A record at the place p of n: the tail from there on is lent, and its records move up.
pub fn insert<R: Record>(area: &mut [u8], p: usize, n: usize, x: R)
    requires { (p ≤ n) × (n * R.format.width + R.format.width ≤ length area.old) }
    ensures { area.new ≡ inserted R.format.width p n (R.format.write x) area.old }
{
    let width = R::WIDTH;
    insert_front(&mut area[p * width..], (n - p) * width, x);
}
