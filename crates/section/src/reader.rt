// A reader: the source and a place in it, which travel together; 01 names this form. Its functions are thin: the work is in the scanners.
// Each asks that the reader stands within its source: `at` takes any place, so that the type can't promise it.
// The walks over the sections go from line to line by `next_declaration` and `next_rule`, which promise the line of a source of any length: they take
// the source and the options, and no `LexFile`, whose source is short.
ghost use Rattle.std.specs.Prelude.{◌≡◌, ◌≤◌, length};
ghost use Rattle.characters.specs.Walk.{Between};
ghost use Rattle.text.specs.Scan.{line_end, skip_blanks};
ghost use Rattle.section.specs.Section.{to_declaration, to_rule};
ghost use Rattle.section.specs.Reader.{reader_at, reader_moved, reader_moved_by, line_from, NextLine};

use crate::options::Options;
use crate::{LexFile, to_declaration, to_rule};
use text::scan::{line_end, parse_spaces};

#[derive(Clone, Copy)]
pub struct Reader<'a> {
    pub source: &'a [u8],
    pub offset: usize,
}

// A line that is read, or a part of one: where it starts and where it ends.
#[derive(Clone, Copy, PartialEq, Eq, Debug)]
pub struct Line {
    pub start: usize,
    pub end: usize,
}

// A line of a file, or a part of one, which the file has.
#[derive(Clone, Copy)]
pub struct FileLine<'a> {
    pub file: LexFile<'a>,
    pub line: Line,
    ghost inside: { (line.start ≤ line.end) × (line.end ≤ length file.source.now) },
}

impl<'a> Reader<'a> {
    pub fn at(source: &'a [u8], offset: usize) -> Self
        ensures { result ≡ reader_at source.entry offset }
    {
        Reader { source, offset }
    }

    pub fn move_to_line_end(mut self) -> Self
        requires { self.offset ≤ length self.source.now }
        ensures { result ≡ reader_moved line_end self.entry }
    {
        self.offset = line_end(self.source, self.offset);
        self
    }

    pub fn move_past_blanks(mut self) -> Self
        requires { self.offset ≤ length self.source.now }
        ensures { result ≡ reader_moved skip_blanks self.entry }
    {
        self.offset = parse_spaces(self.source, self.offset);
        self
    }

    pub fn move_to_declaration(mut self, options: Options) -> Self
        requires { self.offset ≤ length self.source.now }
        ensures { result ≡ reader_moved_by to_declaration options self.entry }
    {
        self.offset = to_declaration(self.source, options, self.offset);
        self
    }

    pub fn move_to_rule(mut self, options: Options) -> Self
        requires { self.offset ≤ length self.source.now }
        ensures { result ≡ reader_moved_by to_rule options self.entry }
    {
        self.offset = to_rule(self.source, options, self.offset);
        self
    }

    // The line from the reader's place on.
    fn line(self) -> Line
        requires { self.offset ≤ length self.source.now }
        ensures { result ≡ line_from self.entry }
    {
        let end = self.move_to_line_end();
        Line {
            start: self.offset,
            end: end.offset,
        }
    }
}

// The line of the next declaration from i on.
pub fn next_declaration(src: &[u8], options: Options, i: usize) -> Line
    requires { i ≤ length src.now }
    ensures { NextLine src.now (to_declaration src.now options) i result }
{
    Reader::at(src, i).move_to_declaration(options).line()
}

// The next rule's line from i on.
pub fn next_rule(src: &[u8], options: Options, i: usize) -> Line
    requires { i ≤ length src.now }
    ensures { NextLine src.now (to_rule src.now options) i result }
{
    Reader::at(src, i).move_to_rule(options).line()
}

// Past the blanks at i.
pub fn past_blanks(src: &[u8], i: usize) -> usize
    requires { i ≤ length src.now }
    ensures { Between i (length src.now) (skip_blanks src.now i) result }
{
    Reader::at(src, i).move_past_blanks().offset
}
