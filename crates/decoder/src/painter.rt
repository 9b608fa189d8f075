// What paints a picture: its bank, its plan and its kind, with the table.
ghost use Rattle.std.specs.Prelude.{◌≡◌};
ghost use Rattle.decoder.specs.Kinds.{PaintsBy, PaintsBy-prop};

use crate::kind::Kind;
use crate::plan::Plan;
use tmem::bank::Bank;

#[derive(Clone, Copy)]
pub(crate) struct Painter<'a> {
    pub(crate) bank: &'a [u8; Bank::SIZE],
    pub(crate) plan: Plan,
    pub(crate) kind: Kind<'a>,
    pub(crate) ghost is: { PaintsBy plan bank.now kind } by { PaintsBy-prop plan bank.now kind },
}

impl<'a> Painter<'a> {
    // The painter by a table that is the kind's.
    pub(crate) fn new(bank: &'a [u8; Bank::SIZE], plan: Plan, kind: Kind<'a>) -> Painter<'a>
        requires { PaintsBy plan bank.now kind }
        ensures bank { result.bank.now ≡ bank.now }
        ensures plan { result.plan ≡ plan }
    {
        Painter { bank, plan, kind }
    }

    // The same, its kind named, so that the compiler sees which it is.
    #[inline(always)]
    pub(crate) fn named(self, kind: Kind<'a>) -> Painter<'a>
        requires { kind ≡ self.kind }
        ensures bank { result.bank ≡ self.entry.bank }
        ensures plan { result.plan ≡ self.entry.plan }
    {
        Painter {
            bank: self.bank,
            plan: self.plan,
            kind,
        }
    }
}
