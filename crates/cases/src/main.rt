// Runs cases from standard input on the library (docs/CASES.md): a line for each that differs, and the totals.
#![tactic(auto)]

mod broadcast;
mod call;
mod lent;
mod long_text;
mod messages;
mod metering;
mod reading;
mod text;
mod value;

use call::Call;
use lent::{Lent, Verdict};
use printed::Sheet;
use std::io::{Input, Read};
use text::Text;

// The lines so far, the cases among them, and those that differ: no input reaches the end of these numbers.
#[derive(Clone, Copy)]
struct Totals {
    lines: u64,
    cases: u64,
    differ: u64,
}

// A run over the lines of the input. Of a line that is too long the sheet holds one octet more than a line may have.
#[derive(Drop)]
struct Run<'a> {
    line: Sheet<'a>,
    totals: Totals,
}

// Words that cannot be written are lost: their reader has gone away.
fn say(rt: &impl Print, words: &[u8]) {
    let _ = rt.write_all(words);
}

fn say_number(rt: &impl Print, n: u64) {
    let _ = print!(rt; "{}", n);
}

// What is said of a line as a whole.
fn say_line(rt: &impl Print, number: u64, words: &[u8]) {
    say(rt, b"line ");
    say_number(rt, number);
    say(rt, words);
}

fn is_label(c: u8) -> bool {
    c.is_ascii_alphanumeric() || matches!(c, b'.' | b'-' | b'_')
}

// The label that opens the line, of 1 to 64 characters, and what stands behind it.
fn labelled(line: &[u8]) -> Option<(&[u8], Text<'_>)> {
    let mut text = Text::new(line);
    let label = text.part(b' ')?;
    if text.left().is_none()
        || label.is_empty()
        || 64 < label.len()
        || !label.iter().all(|c| is_label(*c))
    {
        return None;
    }
    Some((label, text))
}

fn report(rt: &impl Print, label: &[u8], expected: &[u8], came: &[u8]) {
    say(rt, label);
    say(rt, b": expected ");
    say(rt, expected);
    say(rt, b"; came ");
    say(rt, came);
    say(rt, b"\n");
}

// Runs the case in a line, and says so where it differs; None where the line is no case.
fn judge_case(rt: &impl Print, line: &[u8], lent: &mut Lent) -> Option<Verdict> {
    let (label, mut text) = labelled(line)?;
    let call = Call::named(text.part(b' ')?)?;
    let verdict = call.run(&mut text, lent)?;
    if let Verdict::Differs = verdict {
        report(rt, label, text.left()?, lent.came.written());
    }
    Some(verdict)
}

impl<'a> Run<'a> {
    // Runs what stands in the line buffer, if that is a case, and answers whether it agrees. An empty line and a comment agree.
    fn judge(&mut self, rt: &impl Print, lent: &mut Lent) -> bool {
        let line = self.line.written();
        if line.is_empty() || line[0] == b'#' {
            return true;
        }
        self.totals.cases = self.totals.cases.saturating_add(1);
        if 16384 < line.len() {
            say_line(rt, self.totals.lines, b": longer than 16384 characters\n");
            return false;
        }
        match judge_case(rt, line, lent) {
            Some(Verdict::Agrees) => true,
            Some(Verdict::Differs) => false,
            None => {
                say_line(rt, self.totals.lines, b": not a case\n");
                false
            }
        }
    }

    // Ends a line: at a line feed, and at the end of the input.
    fn end_line(&mut self, rt: &impl Print, lent: &mut Lent) {
        self.totals.lines = self.totals.lines.saturating_add(1);
        if !self.judge(rt, lent) {
            self.totals.differ = self.totals.differ.saturating_add(1);
        }
        self.line.end = 0;
    }

    // Takes in what was read: a line feed closes a line. Never inlined: what a case is run in is on the stack only while there are lines.
    #[inline(never)]
    fn feed(&mut self, rt: &impl Print, chunk: &[u8]) {
        // Fixed buffers, since the programs of this repository use no heap.
        let mut came = [0u8; 20480];
        let mut lent = Lent::new(&mut came);
        for (i, piece) in chunk.split(|c| *c == b'\n').enumerate() {
            if 0 < i {
                self.end_line(rt, &mut lent);
            }
            self.line.put(piece);
        }
    }

    // A failed read is a case that differs: what was not read was not run.
    fn unread(&mut self, rt: &impl Print) {
        say(rt, b"standard input cannot be read\n");
        self.totals.cases = self.totals.cases.saturating_add(1);
        self.totals.differ = self.totals.differ.saturating_add(1);
    }

    // Reads to the end. A proved loop has to end, and nothing says that the input does: so it counts its turns, up to a number
    // that no run reaches.
    fn feed_all(&mut self, rt: &(impl Input + Print), chunk: &mut [u8]) {
        let mut input = rt.reader();
        for _ in 0..u64::MAX {
            match input.read(chunk) {
                Ok(0) => return,
                Ok(n) => self.feed(rt, &chunk[..n]),
                Err(_) => return self.unread(rt),
            }
        }
    }
}

fn main(rt: HostRuntime) {
    // Fixed buffers, as in feed.
    let mut chunk = io::large_buffer();
    let mut line = [0u8; 16385];
    let mut run = Run {
        line: Sheet::new(&mut line),
        totals: Totals {
            lines: 0,
            cases: 0,
            differ: 0,
        },
    };
    run.feed_all(&rt, &mut chunk);
    if run.line.end != 0 {
        run.feed(&rt, b"\n");
    }
    say_number(&rt, run.totals.cases);
    say(&rt, b" cases, ");
    say_number(&rt, run.totals.differ);
    say(&rt, b" differ\n");
}
