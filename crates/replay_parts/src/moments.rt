// A link and a sink at one moment, each as one value that clauses see.
ghost use Rattle.replay_parts.specs.Moments.{Moment, Taken};

use pipe_frames::{Link, Sink};

/// What is seen of a link at one moment.
pub trait Watched {
    // The link and the ends together.
    ghost at: { Self → {E : Type 0} → E → Moment E };
}

impl<L: Link> Watched for L {
    ghost at = { λ link ends. record {
      honest = L.honest link;
      up = L.up link;
      down = L.down link;
      faults = L.faults link;
      ends = ends;
    } };
}

/// What is seen of a sink at one moment.
pub trait Printed {
    // What it has taken, and how often it failed.
    ghost at: { Self → Taken };
}

impl<K: Sink> Printed for K {
    ghost at = { λ out. record { bytes = K.taken out; faults = K.faults out } };
}
