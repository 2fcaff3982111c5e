// The record that stands at a place of a circuit or of a pair list.
ghost use Rattle.std.specs.Prelude.{◌≡◌, ◌+◌, ◌≤◌, get_or, length};
ghost use Rattle.records.specs.Records.{angle_at, decode_at, record_at, answered};

use crate::instructions::{Instruction, Record};
use crate::kinds::{Form, shape};
use crate::numbers::{Angle, Bit, Line, Wire};
use crate::refusals::{Cause, Refusal};

// A byte of a record by its distance from the record's place; 0 past the end.
fn byte_at(s: &[u8], at: usize, distance: usize) -> u8
    ensures { result ≡ get_or s.now (at + distance) 0 }
{
    match at.checked_add(distance) {
        Some(place) => s.get(place).copied().unwrap_or(0),
        None => 0,
    }
}

// An angle; bytes past the end count as 0.
fn angle_at(s: &[u8], at: usize, distance: usize) -> Angle
    requires { distance ≤ 3 }
    ensures { result ≡ angle_at s.now at distance }
{
    Angle(
        byte_at(s, at, distance),
        byte_at(s, at, distance + 1),
        byte_at(s, at, distance + 2),
        byte_at(s, at, distance + 3),
        byte_at(s, at, distance + 4),
        byte_at(s, at, distance + 5),
        byte_at(s, at, distance + 6),
        byte_at(s, at, distance + 7),
    )
}

// The record of a known form at a place; bytes past the end count as 0. One arm for each form, since their operands differ.
fn decode(form: Form, s: &[u8], at: usize) -> Record
    ensures { result ≡ decode_at form s.now at }
{
    let kind = byte_at(s, at, 0);
    let first = byte_at(s, at, 1);
    let second = byte_at(s, at, 2);
    match form {
        Form::StaticWidth => Record::StaticWidth(first),
        Form::DynamicWidth => Record::DynamicWidth(first, second),
        Form::Reset => Record::Step(Instruction::Reset(Line(first))),
        Form::Measurement => Record::Step(Instruction::Measurement(Line(first), Bit(second))),
        Form::Gate => Record::Step(Instruction::Gate(kind, Line(first))),
        Form::AngledGate => {
            let angle = angle_at(s, at, 2);
            Record::Step(Instruction::AngledGate(kind, Line(first), angle))
        }
        Form::TwoLineGate => Record::Step(Instruction::TwoLineGate(
            kind,
            Line(first),
            Line(second),
        )),
        Form::AngledTwoLineGate => {
            let angle = angle_at(s, at, 3);
            Record::Step(Instruction::AngledTwoLineGate(kind, Line(first), Line(second), angle))
        }
        Form::Reuse => Record::Reuse(Wire(first), Wire(second)),
    }
}

// The record at a place and the place after it, or nothing at or past the end. An unknown kind is 4, a cut body 2.
pub fn record_at(s: &[u8], at: usize) -> Result<Option<(Record, usize)>, Refusal>
    ensures { answered result ≡ record_at s.now at }
{
    if s.len() <= at {
        return Ok(None);
    }
    let Some(outline) = shape(s[at]) else {
        return Err(Cause::NoInstruction.at(at));
    };
    if s.len() - at <= outline.body {
        return Err(Cause::CutBody.at(at));
    }
    Ok(Some((decode(outline.form, s, at), at + 1 + outline.body)))
}
