// The asks that wait.
ghost use Rattle.std.specs.Prelude.{◌≡◌, option_map, option_copied};
ghost use Rattle.front_mirror.specs.Front.{ask_under, method_waiting, fetched_sheet, asks_without};

use crate::replies::Ask;
use std::collections::VecDeque;

/// The first ask with that id.
fn ask_under(asks: &VecDeque<Ask>, id: u64) -> Option<&Ask>
    ensures { option_copied result ≡ ask_under id asks.now.items }
{
    for ask in asks {
        if ask.id == id {
            return Some(ask);
        }
    }
    None
}

/// The method of the first ask with that id.
pub(crate) fn method_of(asks: &VecDeque<Ask>, id: u64) -> Option<&str>
    ensures { option_map (λ m. m.now) result ≡ method_waiting id asks.now.items }
{
    match ask_under(asks, id) {
        Some(ask) => Some(ask.method.as_str()),
        None => None,
    }
}

/// The sheet that the first ask with that id fetches, if it is a fetch.
pub(crate) fn fetched_sheet(asks: &VecDeque<Ask>, id: u64) -> Option<u64>
    ensures { result ≡ fetched_sheet id asks.now.items }
{
    match ask_under(asks, id) {
        Some(ask) => ask.sheet,
        None => None,
    }
}

/// Takes the first ask with that id out. Replies come in the order of the asks, so it mostly is the first of all.
pub(crate) fn take_ask(asks: &mut VecDeque<Ask>, id: u64) -> Option<Ask>
    ensures ask { result ≡ ask_under id asks.old.items }
    ensures rest { asks.new.items ≡ asks_without id asks.old.items }
{
    for i in 0..asks.len() {
        let ask = &asks[i];
        if ask.id == id {
            return asks.remove(i);
        }
    }
    None
}
