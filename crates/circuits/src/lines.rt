// In a static circuit a line is a wire: the only way from one number to the other. No `From`, which would make a wire of a dynamic
// circuit's line too.
ghost use Rattle.std.specs.Prelude.{◌≡◌};
ghost use Rattle.records.specs.Records.{wire};

use records::{Line, Wire};

pub fn wire_of(line: Line) -> Wire
    ensures { result ≡ wire line.0 }
{
    Wire(line.0)
}
