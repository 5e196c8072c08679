// UTF-16 units of a text.
ghost use Rattle.std.specs.Prelude.{◌≡◌, ◌≤◌, length};
ghost use Rattle.node_tree.specs.Numbers.{max_sheet_bytes};
ghost use Rattle.css_agent.specs.Told.{units_in};

use sheet_reader::units_at;

/// In UTF-16 units.
pub(crate) fn units_in(text: &str) -> u64
    requires { length text.now ≤ max_sheet_bytes }
    ensures { result ≡ units_in text.now }
{
    let mut units = 0;
    for byte in text.as_bytes() {
        units += units_at(*byte);
    }
    units
}
