// The command: texts written as messages of one page or part or of several, messages read, joined and drawn, coding octets told, and the room left of a text
// that is typed, by the proved library.
#![tactic(auto)]

mod asked;
mod broadcast;
mod digits;
mod draw;
mod fault;
mod help;
mod long_text;
mod options;
mod refusal;
mod room;
mod tell;
mod verb;
mod verbs;

ghost use Rattle.io.specs.Counts.{IsPrefixLen};

use asked::{Job, Task, Typed};
use digits::MOST;
use fault::Fault;
use printed::Sheet;
use std::env::{Env, FillError};
use std::io::{Input, Read, Result};
use tell::{Answer, Layout};
use verb::Verb;

// Words that cannot be written are lost: their reader has gone away.
fn say(rt: &impl Print, words: &[u8]) {
    let _ = rt.write_all(words);
}

// The script tells this end from every answer.
fn unread(rt: &impl Print) {
    say(rt, b"cannot: standard input cannot be read\n");
}

// Puts the arguments into the line, with an octet 0 between them. A word that is too long makes the line so.
// Never inlined: its buffer is on the stack only while it runs.
#[inline(never)]
fn gather(rt: &impl Env, line: &mut Sheet<'_>) {
    // Fixed memory, since no heap is a rule of the project.
    let mut word = [0u8; MOST];
    // An argument is asked for by its number: a list of them would be on the heap.
    for i in 1..usize::MAX {
        match rt.arg(i, &mut word) {
            Ok(n) => {
                if 1 < i {
                    line.put(&[0]);
                }
                line.put(&word[..n]);
            }
            Err(FillError::NotPresent) => break,
            Err(FillError::TooLong) => {
                line.end = line.buffer.len();
                break;
            }
        }
    }
}

// Reads until the buffer is full, the input ends or a read fails, and answers how much stands at its front.
fn read_full(input: &mut impl Read, buf: &mut [u8]) -> usize
    ensures { IsPrefixLen result buf.new }
{
    // A read says how far it came, so the place is counted here: docs/PORT.md has what this promises.
    let mut done: usize = 0;
    while done < buf.len() {
        let n = input.read(&mut buf[done..]).unwrap_or(0);
        if n == 0 {
            break;
        }
        done += n;
    }
    done
}

// What one more read of standard input answers.
fn read_more(input: &mut impl Read) -> Result<usize> {
    let mut one = [0u8; 1];
    input.read(&mut one)
}

// A text without a line feed, or a carriage return and a line feed, at its end.
fn without_end(text: &[u8]) -> &[u8] {
    match text.strip_suffix(b"\n") {
        Some(line) => without_return(line),
        None => text,
    }
}

fn without_return(line: &[u8]) -> &[u8] {
    line.strip_suffix(b"\r").unwrap_or(line)
}

// The text of standard input in the place of the one that was typed; whether it is short enough.
fn with_input(rt: &impl Input, text: &mut Sheet<'_>) -> Result<bool> {
    let mut input = rt.reader();
    let n = read_full(&mut input, text.buffer);
    let more = read_more(&mut input)?;
    text.end = without_end(&text.buffer[..n]).len();
    Ok(more == 0 && text.end <= MOST)
}

// Says what is wrong, with the usage of the command where a person reads it.
fn complain(answer: &mut Answer<'_>, fault: Fault<'_>, verb: Option<Verb>) {
    fault.tell(answer);
    if answer.layout == Layout::People {
        answer.sheet.put(help::on(verb));
    }
}

fn message(rt: &impl Print, answer: &mut Answer<'_>, job: &Job<'_>, typed: &mut Typed<'_>) {
    let text = typed.text.written();
    if job.verb.writes() {
        let outcome = verbs::on_text(rt, answer, job, text, typed.units);
        settle(answer, job, outcome);
    } else {
        let outcome = verbs::on_octets(answer, job, text);
        settle(answer, job, outcome);
    }
}

// Ends an answer: what is wrong is told in its place.
fn settle(answer: &mut Answer<'_>, job: &Job<'_>, outcome: std::result::Result<(), Fault<'_>>) {
    if let Err(fault) = outcome {
        complain(answer, fault, Some(job.verb));
    }
}

// Answers a request, or answers the layout in which lines are to be answered. An empty line is passed by.
fn request(
    rt: &(impl Input + Print),
    line: &[u8],
    number: Option<usize>,
    layout: Layout,
    out: &mut [u8],
) -> Option<Layout> {
    // Fixed memory, since no heap is a rule of the project.
    let mut text = [0u8; MOST + 2];
    let mut units = [0u16; MOST];
    let mut typed = Typed {
        text: Sheet::new(&mut text),
        units: &mut units,
    };
    let asked = match asked::read(line, number, layout, &mut typed) {
        Ok(asked) => asked,
        Err(complaint) => {
            let mut answer = Answer::begun(out, complaint.layout, number);
            complain(&mut answer, complaint.fault, complaint.verb);
            finish(rt, &mut answer);
            return None;
        }
    };
    let mut fits = true;
    if asked.input {
        match with_input(rt, &mut typed.text) {
            Ok(short) => fits = short,
            Err(_) => {
                unread(rt);
                return None;
            }
        }
    }
    let mut answer = Answer::begun(out, asked.layout, number);
    match asked.task {
        Task::Lines => return Some(asked.layout),
        Task::Help(topic) => {
            if fits {
                answer.sheet.put(help::on(topic));
            } else {
                complain(&mut answer, Fault::Long, Some(Verb::Help));
            }
        }
        Task::Message(job) => {
            if fits {
                message(rt, &mut answer, &job, &mut typed);
            } else {
                complain(&mut answer, Fault::Long, Some(job.verb));
            }
        }
    }
    finish(rt, &mut answer);
    None
}

fn finish(rt: &impl Print, answer: &mut Answer<'_>) {
    answer.finish();
    say(rt, answer.sheet.written());
}

// Lines as they come: the layout of their answers, the present one as far as it has come, how many came before it, and whether any was answered.
#[derive(Drop)]
struct Flow<'a> {
    layout: Layout,
    line: Sheet<'a>,
    lines: usize,
    told: bool,
}

impl Flow<'_> {
    // Answers the present line, unless that is empty, and begins the next one.
    fn end_line(&mut self, rt: &(impl Input + Print), out: &mut [u8]) {
        self.lines = self.lines.saturating_add(1);
        let line = without_return(self.line.written());
        if !line.is_empty() {
            request(rt, line, Some(self.lines), self.layout, out);
            self.told = true;
        }
        self.line.end = 0;
    }

    // Takes in what was read: a line feed closes a line.
    fn feed(&mut self, rt: &(impl Input + Print), chunk: &[u8], out: &mut [u8]) {
        for (i, part) in chunk.split(|c| *c == b'\n').enumerate() {
            if 0 < i {
                self.end_line(rt, out);
            }
            self.line.put(part);
        }
    }
}

// Answers the lines of standard input, to its end. A proved loop has to end, and nothing says that the input does: so it counts its turns,
// up to a number that no run reaches.
// Never inlined, so that a single request has no chunk on its stack.
#[inline(never)]
fn lines(rt: &(impl Input + Print), flow: &mut Flow<'_>, out: &mut [u8]) {
    // Fixed memory, since no heap is a rule of the project.
    let mut chunk = io::large_buffer();
    let mut input = rt.reader();
    for _ in 0..u64::MAX {
        match input.read(&mut chunk) {
            Ok(0) => break,
            Ok(n) => flow.feed(rt, &chunk[..n], out),
            Err(_) => {
                unread(rt);
                break;
            }
        }
    }
    flow.end_line(rt, out);
    if !flow.told {
        say(rt, b"nothing\n");
    }
}

fn main(rt: HostRuntime) {
    // Fixed memory, since no heap is a rule of the project.
    let mut line = io::large_buffer();
    let mut out = io::large_buffer();
    let mut words = Sheet::new(&mut line);
    gather(&rt, &mut words);
    if let Some(layout) = request(&rt, words.written(), None, Layout::People, &mut out) {
        let mut short = [0u8; MOST + 2];
        let mut flow = Flow {
            layout: if layout == Layout::People {
                Layout::Words
            } else {
                layout
            },
            line: Sheet::new(&mut short),
            lines: 0,
            told: false,
        };
        lines(&rt, &mut flow, &mut out);
    }
}
