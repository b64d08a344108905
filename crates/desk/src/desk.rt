// The desk that tickets are lent from and come back to.
ghost use Rattle.std.specs.Prelude.{◌≡◌, ℕ, ◌≤◌, All, ◌++◌, [], ◌∷◌, OnOk, OnErr};
ghost use Rattle.std.specs.Option.{option_map};
ghost use Rattle.desk.specs.Desks.{is_out, has_vat, lent_at, without};
ghost use Rattle.desk.specs.DeskView.{lent_of};

use ids::names::{EventName, MsgId, VatNo};
use std::alloc::{AllocError, Global};

/// A ticket that is out: the event that its turn will be, its message, the vat, the budget, and the seat.
#[derive(Clone, Copy, PartialEq, Eq)]
pub struct Lent {
    pub number: EventName,
    pub message: MsgId,
    pub vat: VatNo,
    pub budget: u32,
    pub seat: u64,
}

/// The tickets that are out.
#[derive(Drop)]
pub struct Desk {
    out: Vec<Lent>,
}

impl Desk {
    ghost use Rattle.desk.specs.DeskView.{out_of};

    /// No ticket is out.
    pub fn new(alloc: Global) -> Desk
        ensures { out_of result ≡ [] }
    {
        Desk {
            out: Vec::new(alloc),
        }
    }

    /// Whether a ticket of this vat is out.
    pub fn has_vat(&self, vat: VatNo) -> bool
        ensures { result ≡ has_vat vat (out_of self.now) }
    {
        self.out.iter().any(|lent| lent.vat == vat)
    }

    /// The ticket of this number, if it is out.
    pub fn get(&self, number: EventName) -> Option<Lent>
        ensures { option_map lent_of result ≡ lent_at number (out_of self.now) }
    {
        self.out.iter().find(|lent| lent.number == number).copied()
    }

    /// The greatest seat that a ticket is lent to; 0 where none is.
    pub fn greatest_seat(&self) -> u64
        ensures above { All (λ t. t.seat ≤ result) (out_of self.now) }
        ensures least { (n : ℕ) → All (λ t. t.seat ≤ n) (out_of self.now) → result ≤ n }
    {
        let mut greatest = 0;
        for lent in &self.out {
            if lent.seat > greatest {
                greatest = lent.seat;
            }
        }
        greatest
    }

    /// Notes a ticket that is lent. Fails only for want of memory, and then nothing changes.
    pub fn lend(&mut self, lent: Lent) -> Result<(), AllocError>
        ensures ok { OnOk result (out_of self.new ≡ out_of self.old ++ lent_of lent ∷ []) }
        ensures err { OnErr result (out_of self.new ≡ out_of self.old) }
    {
        self.out.push(lent)?;
        Ok(())
    }

    /// Strikes out the ticket of this number, and says whether it was out. It takes no memory.
    pub fn remove(&mut self, number: EventName) -> bool
        ensures out { result ≡ is_out number (out_of self.old) }
        ensures rest { out_of self.new ≡ without number (out_of self.old) }
    {
        let before = self.out.len();
        self.out.retain(|lent| lent.number != number);
        self.out.len() < before
    }
}
