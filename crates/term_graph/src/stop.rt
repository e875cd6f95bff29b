//! Why a term isn't added.
use cbl_base::WantOfMemory;

/// Why a term isn't added: there would be more nodes than the limit of term nodes, or there was no memory.
#[derive(Clone, Copy, PartialEq, Eq, Debug)]
pub enum GraphStop {
    TooMany,
    NoMemory,
}

impl<E: WantOfMemory> From<E> for GraphStop {
    ghost use Rattle.std.specs.Prelude.{◌≡◌};
    ghost use Rattle.term_graph.specs.declared.stop.GraphStop.TheVariants as stops;

    ghost from_gives = { λ _ stop. stop ≡ stops.NoMemory };

    fn from(_error: E) -> GraphStop {
        GraphStop::NoMemory
    }
}
