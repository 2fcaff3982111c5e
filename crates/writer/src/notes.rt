// What is kept of each instruction by its index, so that each is read once before any is written: its form, its wires and the
// places between which it stands.
ghost use Rattle.std.specs.Prelude.{◌≡◌, ◌+◌, length, get_or};
ghost use Rattle.circuits.specs.Limits.{most_instructions, header_length};

use circuits::{Circuit, Sketch, wire_of};
use records::Wire;

#[derive(Clone, Copy, PartialEq, Eq)]
pub(crate) enum Form {
    Reset,
    // Another instruction on one wire.
    One,
    // An instruction on two wires.
    Two,
}

#[derive(Clone, Copy)]
pub(crate) struct Note {
    pub form: Form,
    pub first: Wire,
    // The only wire again where there is no other: no `Option`, so that both are tested and moved alike.
    pub second: Wire,
}

// The places stand apart from the rest: beside it each would be padded, which adds 2 kilobytes to the stack of `compile`.
#[derive(Drop)]
pub(crate) struct Notes {
    pub all: [Note; Circuit::MOST_INSTRUCTIONS],
    // Where each instruction stands, and the place after the last.
    pub places: [u16; Circuit::MOST_INSTRUCTIONS + 1],
    ghost sized: { length all ≡ most_instructions },
    ghost sized_places: { length places ≡ most_instructions + 1 },
    ghost header: { get_or places 0 0 ≡ header_length },
}

impl Form {
    ghost use Rattle.writer.specs.Notes.{is_reset, is_two};

    pub(crate) fn is_reset(self) -> bool
        ensures { result ≡ is_reset self }
    {
        self == Form::Reset
    }

    pub(crate) fn is_two(self) -> bool
        ensures { result ≡ is_two self }
    {
        self == Form::Two
    }
}

impl Note {
    ghost use Rattle.writer.specs.Notes.{note_sketched};

    // Of no instruction.
    pub const NONE: Note = Note {
        form: Form::Reset,
        first: Wire(0),
        second: Wire(0),
    };

    fn on_one(form: Form, only: Wire) -> Note
        ensures { (result.form ≡ form) × (result.first ≡ only) × (result.second ≡ only) }
    {
        Note {
            form,
            first: only,
            second: only,
        }
    }

    fn of(sketch: Sketch) -> Note
        ensures { result ≡ note_sketched sketch }
    {
        match sketch {
            Sketch::Reset(only) => Note::on_one(Form::Reset, wire_of(only)),
            Sketch::Measurement(only, _) => Note::on_one(Form::One, wire_of(only)),
            Sketch::One(only) => Note::on_one(Form::One, wire_of(only)),
            Sketch::Two(first, second) => Note {
                form: Form::Two,
                first: wire_of(first),
                second: wire_of(second),
            },
        }
    }
}

impl Notes {
    ghost use Rattle.std.specs.Prelude.{◌<◌, set};
    ghost use Rattle.circuits.specs.Limits.{deciding_bytes};
    ghost use Rattle.writer.specs.Notes.{note_sketched};

    // Of no instruction yet. All but the first place is 0, so that nothing is filled twice and copied.
    pub(crate) fn none() -> Notes {
        let mut notes = Notes {
            all: [Note::NONE; Circuit::MOST_INSTRUCTIONS],
            places: [0; Circuit::MOST_INSTRUCTIONS + 1],
        };
        notes.places[0] = Circuit::HEADER as u16;
        notes
    }

    // Keeps the form and the wires of an instruction, and the place after it.
    pub(crate) fn note(&mut self, index: usize, sketch: Sketch, next: usize)
        requires { (index < most_instructions) × (next < deciding_bytes) }
        ensures all_after { self.new.all ≡ set self.old.all index (note_sketched sketch) }
        ensures places_after { self.new.places ≡ set self.old.places (index + 1) next }
    {
        self.all[index] = Note::of(sketch);
        self.places[index + 1] = next as u16;
    }
}
