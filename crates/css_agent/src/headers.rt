// What is told of a sheet as it comes.
ghost use Rattle.std.specs.Prelude.{◌≡◌};
ghost use Rattle.sheet_reader.specs.Books.{IsEntry};
ghost use Rattle.css_agent.specs.Told.{told_header};

use crate::units::units_in;
use css_objects::Header;
use sheet_reader::SheetEntry;

/// What is told of a sheet as it comes.
pub fn told_header(entry: &SheetEntry) -> Header
    requires { IsEntry entry.now }
    ensures { result ≡ told_header entry.now }
{
    Header {
        length: units_in(entry.text.as_str()),
        origin: entry.origin,
        sheet: entry.id,
    }
}
