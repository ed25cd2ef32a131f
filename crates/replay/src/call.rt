// The parse call, in buffers that are lent or of its own.
ghost use Rattle.std.specs.Prelude.{◌≡◌, length};
ghost use Rattle.section.specs.Request.{asked};
ghost use Rattle.replay.specs.Records.{Called};

use recorded::reader::Cursor;
use troymantle::troymantle_parse;

// Of the zeros the contract gives only how many there are, which is all that lending them needs.
pub fn zeros<const N: usize>() -> [u8; N]
    ensures { length result ≡ N }
{
    [0; N]
}

// Of each buffer the call is lent as much as the record has for the area. The buffers are lent, and not answered with the word: as parts of an answer
// all of them were copied for each record.
pub fn parse_into(
    src: &[u8],
    flags: u64,
    verdicts: &[u8],
    lengths: &Cursor,
    counts: &mut [u16; 6],
    area1: &mut [u8],
    area2: &mut [u8],
    area3: &mut [u8],
    area4: &mut [u8],
    area5: &mut [u8],
    area6: &mut [u8],
) -> u64
    ensures { Called (asked src.now flags verdicts.now) lengths.now.answers.now lengths.now.at result counts.new
        area1.new area2.new area3.new area4.new area5.new area6.new }
{
    let mut lengths = *lengths;
    let c1 = lengths.lent(area1.len());
    let c2 = lengths.lent(area2.len());
    let c3 = lengths.lent(area3.len());
    let c4 = lengths.lent(area4.len());
    let c5 = lengths.lent(area5.len());
    let c6 = lengths.lent(area6.len());
    troymantle_parse(
        src,
        flags,
        verdicts,
        &mut area1[..c1],
        &mut area2[..c2],
        &mut area3[..c3],
        &mut area4[..c4],
        &mut area5[..c5],
        &mut area6[..c6],
        counts,
    )
}

// What the parse call leaves: its word, the counts, and buffers with the areas at their fronts.
#[derive(Drop)]
pub struct Left {
    pub word: u64,
    pub counts: [u16; 6],
    pub area1: [u8; 512],
    pub area2: [u8; 65536],
    pub area3: [u8; 65536],
    pub area4: [u8; 65536],
    pub area5: [u8; 65536],
    pub area6: [u8; 65536],
}

// The same in buffers of its own, which are copied into the answer.
pub fn parse(src: &[u8], flags: u64, verdicts: &[u8], lengths: &Cursor) -> Left
    ensures { Called (asked src.now flags verdicts.now) lengths.now.answers.now lengths.now.at result.word result.counts
        result.area1 result.area2 result.area3 result.area4 result.area5 result.area6 }
{
    let mut counts = [0; 6];
    let mut area1 = zeros();
    let mut area2 = zeros();
    let mut area3 = zeros();
    let mut area4 = zeros();
    let mut area5 = zeros();
    let mut area6 = zeros();
    let word = parse_into(
        src,
        flags,
        verdicts,
        lengths,
        &mut counts,
        &mut area1,
        &mut area2,
        &mut area3,
        &mut area4,
        &mut area5,
        &mut area6,
    );
    Left {
        word,
        counts,
        area1,
        area2,
        area3,
        area4,
        area5,
        area6,
    }
}

#[cfg(test)]
mod tests {
    use super::*;

    // README's file and its sheet. A record lends all of area 1, 256 bytes of areas 2 to 5 and nothing of area 6; with 27 bytes the rule does not fit.
    #[test]
    fn rule_parsed(rt: HostRuntime) {
        let src = b"%x S\n%%\nq <+S>'N'";
        let lengths = b"\0\x02\0\0\0\x01\0\0\0\x01\0\0\0\x01\0\0\0\x01\0\0\0\0\0\0";
        let left = parse(src, 0, &[], &Cursor::new(lengths, 0));
        assert_eq!(rt; left.word, 0);
        assert_eq!(rt; left.counts[0], 2, "states");
        assert_eq!(rt; left.counts[1], 1, "rules");
        for (at, want) in [(0, 3), (2, 4), (4, 1)] {
            assert_eq!(rt; left.area1[6 + at], want, "byte {at} of state 1");
        }
        let fields = [1, 0, 1, 11, 12, 15, 1, 0, 8, 1, 0, 0, 2, 1];
        for k in 0..fields.len() {
            assert_eq!(rt; left.area2[2 * k], fields[k], "field {k} of the rule");
            assert_eq!(rt;
                left.area2[2 * k + 1],
                0,
                "field {k} of the rule, its high byte"
            );
        }
        let lengths = b"\0\x02\0\0\x1b\0\0\0\0\x01\0\0\0\x01\0\0\0\x01\0\0\0\0\0\0";
        let full = parse(src, 0, &[], &Cursor::new(lengths, 0));
        assert_eq!(rt; full.word % 65536, 4, "area full");
        assert_eq!(rt; full.word / 65536 % 65536, 2, "which one");
    }
}
