// A panel that shows what is no face of any mirror until it is told of a change, and that has memory for one call alone.
use front_mirror::{Change, Mirror, Panel, PanelKind};
use std::alloc::AllocError;

/// It is told that the mirror is empty when it is handed in; what comes next it refuses for want of memory.
#[derive(Drop)]
pub(crate) struct BriefPanel {
    is_told: bool,
}

impl BriefPanel {
    /// A panel that was told of nothing yet.
    pub(crate) fn new() -> BriefPanel {
        BriefPanel { is_told: false }
    }
}

impl Panel for BriefPanel {
    ghost use Rattle.std.specs.Prelude.{codes, cond};
    ghost use Rattle.front_mirror.specs.declared.panels.PanelKind.TheVariants.{Counts};

    ghost kind_of = { λ p. Counts };

    ghost shown = { λ p. cond p.is_told (codes "no document\n") (codes "elements 7\n") };

    fn kind(&self) -> PanelKind {
        PanelKind::Counts
    }

    fn note(&mut self, change: &Change, mirror: &Mirror) -> Result<(), AllocError> {
        let _ = mirror;
        match change {
            Change::Cleared if !self.is_told => {
                self.is_told = true;
                Ok(())
            }
            _ => Err(AllocError),
        }
    }

    fn text(&self) -> &str {
        if self.is_told {
            "no document\n"
        } else {
            "elements 7\n"
        }
    }
}
