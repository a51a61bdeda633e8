//! A counter of steps, which contracts see and which no program reads at run time.
ghost use Rattle.std.specs.Prelude.{◌≡◌, ℕ, ◌+◌, ◌<◌};

use std::marker::{Brand, Model, PhantomData};
use std::sync::ledger::{Blank, Book, Ledger, Share};

/// A ledger whose value opens an empty book.
pub trait StepLedger: Ledger {
    /// The empty book.
    fn into_blank(self) -> Blank
    where
        Self: Sized,
        ensures name { result.name ≡ Self.name }
        ensures parts { result.parts ≡ Self.parts }
        ensures some { 0 < result.parts };
}

/// A number of steps, which contracts see as that number. It takes no space.
///
/// Only [`Steps::new`] makes one, from a value of its ledger; it can't be copied, and only
/// [`Steps::tick`] adds to it. So code that gets a counter and no ledger can count only on that
/// counter.
#[derive(Drop)]
pub struct Steps<L: Ledger> {
    book: Book<L>,
    share: Share<L>,
}

impl<L: Ledger> Model for Steps<L> {
    ghost Value = { ℕ };

    ghost view = { λ s. s.book.total };

    ghost invariant = { λ s. 0 < s.share.parts };
}

impl<L: StepLedger> Steps<L> {
    /// A counter with value 0.
    pub fn new(ledger: L) -> Steps<L>
        ensures { result ≡ 0 }
    {
        let (book, share) = ledger.into_blank().open();
        Steps { book, share }
    }
}

impl<L: Ledger> Steps<L> {
    /// Adds to the counter.
    pub fn tick(&mut self, count: usize)
        ensures { self.new ≡ self.old + count }
    {
        self.book.add(&mut self.share, count as u64);
    }
}

/// The book of an [`OwnLedger`]; its creator picks it.
pub trait Page {
    ghost number: { ℕ };

    ghost pieces: { ℕ };
}

impl Page for Brand {
    ghost number = { 0 };

    ghost pieces = { 0 };
}

/// A ledger that its creator makes of an empty book.
pub struct OwnLedger<P: Page> {
    blank: Blank,
    of: PhantomData<P>,
    ghost named: { blank.name ≡ P.number },
    ghost cut: { blank.parts ≡ P.pieces },
    ghost some: { 0 < P.pieces },
}

impl<P: Page> OwnLedger<P> {
    /// The ledger of this book.
    pub fn new(blank: Blank) -> OwnLedger<P>
        requires named { blank.name ≡ P.number }
        requires cut { blank.parts ≡ P.pieces }
        requires some { 0 < blank.parts }
    {
        OwnLedger {
            blank,
            of: PhantomData,
        }
    }
}

impl<P: Page> Ledger for OwnLedger<P> {
    ghost name = { P.number };

    ghost parts = { P.pieces };
}

impl<P: Page> StepLedger for OwnLedger<P> {
    fn into_blank(self) -> Blank {
        let OwnLedger { blank, of: _ } = self;
        blank
    }
}
