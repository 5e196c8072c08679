// The lines of a drill, carried out one by one as they are made; nothing of them is printed.
ghost use Rattle.std.specs.Prelude.{option_map, IfOk};
ghost use Rattle.replay_script.specs.Seen.{seen};
ghost use Rattle.drill_script.specs.Given.{GivesFirst};
ghost use Rattle.drill_script.specs.LineKinds.{AreDrillLines};
ghost use Rattle.replay_parts.specs.Stops.{StopRose, two_counts};
ghost use Rattle.inspect_replay.specs.Drilled.{FormsFollow, RunsForms};

use crate::one_front::OneFront;
use crate::run::carry_plain;
use drill_script::Drill;
use front_mirror::Panel;
use pipe_frames::{Link, OutErr, Sink};
use replay_parts::{Stop, Watched};
use replay_script::Line;
use std::alloc::{AllocError, Global};

/// A sink that takes all bytes and tells none.
#[derive(Drop)]
struct Nowhere;

impl Sink for Nowhere {
    ghost use Rattle.std.specs.Prelude.{None};

    ghost taken = { λ _. None };

    ghost faults = { λ _. 0 };

    fn write(&mut self, piece: &[u8]) -> Result<usize, OutErr> {
        Ok(piece.len())
    }
}

fn next_line(alloc: Global, drill: &mut Drill) -> Result<Option<Line>, AllocError>
    ensures { IfOk result (λ line. GivesFirst drill.old (option_map seen line) drill.new) }
{
    drill.next_line(alloc)
}

/// Carries out the lines of a drill.
pub(crate) fn run_turns<P: Panel, L: Link>(
    alloc: Global,
    mut drill: Drill,
    ends: &mut OneFront<P>,
    link: &mut L,
) -> Result<(), Stop>
    requires { AreDrillLines drill }
    ensures honest { L.honest link.old → L.honest link.new }
    ensures cause { StopRose (two_counts 0 0 (L.faults link.old) (L.faults link.new)) result }
    ensures follows { FormsFollow drill (⟦<L as Watched>⟧.at link.old ends.old)
        (⟦<L as Watched>⟧.at link.new ends.new) result }
    ensures runs { RunsForms drill (⟦<L as Watched>⟧.at link.old ends.old)
        (⟦<L as Watched>⟧.at link.new ends.new) result }
{
    let mut nowhere = Nowhere;
    while let Some(line) = next_line(alloc, &mut drill)? {
        let carried = carry_plain(alloc, 0, line, ends, &mut nowhere, link);
        match carried {
            Ok(()) => {}
            Err(stop) => return Err(stop),
        }
    }
    Ok(())
}
