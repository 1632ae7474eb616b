// The room left while a text is typed: the number after each of its keys.
use crate::asked::Job;
use crate::digits::MOST;
use crate::refusal::Refusal;
use crate::say;
use crate::tell::{Answer, Layout, Value};
use wikuay::meters;
use wikuay::meters::{MeterAnswer, MeterNumbers};

// The keys of a text, of which two are no letters, and the alphabet has neither.
#[derive(Clone, Copy, PartialEq, Eq)]
enum Key {
    // Takes the last unit back.
    Back,
    Clear,
    Letter(u16),
}

impl From<u16> for Key {
    fn from(unit: u16) -> Key {
        match unit {
            0x0008 => Key::Back,
            0x0018 => Key::Clear,
            _ => Key::Letter(unit),
        }
    }
}

// The text so far, in fixed memory, since no heap is a rule of the project; and its meter.
#[derive(Drop)]
struct Typing<'a> {
    units: &'a mut [u16],
    len: usize,
    meter: MeterNumbers,
}

impl Typing<'_> {
    // One more key. Where there is no unit, no key takes it back; one that is refused changes nothing.
    fn press(&mut self, key: Key) -> MeterAnswer {
        let answer = match key {
            Key::Clear => meters::wikuay_meter_cleared(self.meter),
            Key::Letter(unit) => meters::wikuay_unit_added(self.meter, unit),
            Key::Back => match self.last() {
                Some(unit) => meters::wikuay_unit_taken_back(self.meter, unit),
                None => meters::wikuay_room_left(self.meter),
            },
        };
        self.meter = answer.meter;
        if answer.refusal == 0 {
            self.apply(key);
        }
        answer
    }

    fn last(&self) -> Option<u16> {
        self.units.get(..self.len)?.last().copied()
    }

    fn apply(&mut self, key: Key) {
        match key {
            Key::Clear => self.len = 0,
            Key::Back => self.len = self.len.saturating_sub(1),
            Key::Letter(unit) => {
                if let Some(place) = self.units.get_mut(self.len) {
                    *place = unit;
                    self.len += 1;
                }
            }
        }
    }
}

// The keys of a text can take more room than the buffer has: what it holds goes out before it is full. Something is told behind it, which
// closes the answer.
fn pass_on(rt: &impl Print, answer: &mut Answer<'_>) {
    if 32768 <= answer.sheet.end {
        say(rt, answer.sheet.written());
        answer.sheet.end = 0;
    }
}

// The number after a key, and the refusal of one that did not go.
fn tell(answer: &mut Answer<'_>, number: usize, unit: u16, pressed: MeterAnswer) {
    let key = Value::Word(b"key ");
    let number = Value::Number(number as u64);
    answer.name(&[key, number]);
    if answer.layout != Layout::Json {
        answer.puts(&[Value::Text(&[unit]), Value::Word(b" ")]);
    }
    if pressed.left < 0 {
        answer.put(Value::Word(b"-"));
    }
    answer.put(Value::Number(printed::magnitude(pressed.left)));
    answer.end();
    if let Some(refusal) = Refusal::of(pressed.refusal, pressed.position) {
        answer.name(&[key, number, Value::Word(b" is")]);
        answer.quote();
        refusal.put(answer);
        answer.quote();
        answer.end();
    }
}

// The size of the service, and the number after each key.
// Never inlined: its text is on the stack only while it runs.
#[inline(never)]
pub(crate) fn room(rt: &impl Print, answer: &mut Answer<'_>, job: &Job<'_>, units: &[u16]) {
    let mut text = [0u16; MOST];
    let fresh = meters::wikuay_new_meter(job.service.number());
    answer.fact(b"size", Value::Number(printed::magnitude(fresh.left)));
    let mut typing = Typing {
        units: &mut text,
        len: 0,
        meter: fresh.meter,
    };
    for (number, unit) in (1..).zip(units) {
        pass_on(rt, answer);
        let pressed = typing.press(Key::from(*unit));
        tell(answer, number, *unit, pressed);
    }
}
