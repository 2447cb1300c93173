// The water account of a trial: what the tables gave its standing steps, so that a take-back gives back what its steps were given.
ghost use Rattle.std.specs.Prelude.{◌≡◌, ◌+◌, ◌<◌};
ghost use Rattle.trying.specs.Given.{AccountOpened, account_back, account_with, most_slots};

// As many steps are kept at most.
pub const MOST_SLOTS: usize = 256;

// The water at the start, what the tables gave the standing steps, and beside the slot of each record what they had given before its step.
#[derive(Clone, Copy)]
pub struct Account {
    pub start: u64,
    pub given: u64,
    pub before: [u64; 256],
}

// The account of a state of which no step is kept.
pub fn open_account(start: u64, given: u64) -> Account
    ensures { AccountOpened start given result }
{
    Account {
        start: start,
        given: given,
        before: [0; 256],
    }
}

// After a step whose record lies in a slot, and which was given so much.
pub(crate) fn account_with(account: Account, slot: usize, more: u64) -> Account
    requires { (slot < most_slots) × (account.given + more < 18_446_744_073_709_551_616) }
    ensures { result ≡ account_with account slot more }
{
    let mut before = account.before;
    before[slot] = account.given;
    Account {
        start: account.start,
        given: account.given + more,
        before: before,
    }
}

// After take-backs of which the earliest step's record lies in a slot.
pub(crate) fn account_back(account: Account, slot: usize) -> Account
    requires { slot < most_slots }
    ensures { result ≡ account_back account slot }
{
    let before = account.before;
    let given = before[slot];
    Account {
        start: account.start,
        given: given,
        before: before,
    }
}
