// What the proofs keep of each seat. The program makes no such value.
ghost use Rattle.std.specs.Prelude.{List};
ghost use base.Fml.{ftrue};
ghost use base.Stored.{coded_list};
ghost use denote.RawPtr.{Ptr, coded_ptr};

use std::marker::{Model, PhantomData};

/// Where rows lie.
pub struct Known {
    marker: PhantomData<()>,
    pub ghost places: { List Ptr } by { coded_list coded_ptr },
}

impl Model for Known {
    ghost also_owns = { λ _. ftrue };
}

/// What a seat knows.
pub struct Sight<V> {
    /// The client's view.
    pub client: V,
    /// How many cells each block has at least.
    pub cells: u64,
    /// The number of the block whose slot is out with the seat.
    pub at: u64,
    /// Where the rows lie that there were when the seat last stepped.
    pub chart: Known,
    /// Whether the seat makes the blocks.
    pub maker: bool,
    /// How many blocks there are, where it does.
    pub made: u64,
    /// Where the next one lies, once its link is entered.
    pub plan: Known,
}
