// Request 7: the accounts of the captures of all six channels, kept while a history runs. `none`
// gives the accounts at reset; `go_on` takes them on by one event, with the board that the event
// finds; `balance_of` reads the five numbers off at the end. An `Audit` has the board beside them
// and sends it the events. Nothing is asked of a board or an event: a field outside its range counts
// as its value at reset, as it does for `board::apply`.
#![tactic(auto)]

ghost use Rattle.std.specs.Prelude.{◌≡◌};
ghost use Rattle.counter.specs.Repair.{repaired};
ghost use Rattle.board.specs.Handed.{reset_board, repaired_board, applied};
ghost use Rattle.account.specs.Accounts.{no_accounts, more, accounts_after, balance_of};
ghost use Rattle.account.specs.Code.{all_emptied, after_held, after_step, after_call};

use board::{Board, CHANNELS};
use calls::{Answer, Event, Kind, Refusal};
use counter::Channel;

// What was made, handed out and reported so far. A number that has come to 2^64 - 1 stays there.
#[repr(C)]
#[derive(Clone, Copy)]
pub struct Account {
    pub made: u64,
    pub handed: u64,
    pub reported: u64,
}

// The five numbers: captures made, entries handed out by call 11, entries held, lost captures
// reported by result 6, and lost captures not yet reported.
#[repr(C)]
#[derive(Clone, Copy)]
pub struct Balance {
    pub made: u64,
    pub handed: u64,
    pub held: u64,
    pub reported: u64,
    pub unreported: u64,
}

// A board, and the accounts of its captures.
#[repr(C)]
#[derive(Clone, Copy)]
pub struct Audit {
    pub board: Board,
    pub accounts: [Account; CHANNELS],
}

impl Account {
    // So much more of each.
    #[tactic(auto, unfolding(crate::specs::Accounts::added))]
    fn more(self, made: u64, handed: u64, reported: u64) -> Account
        ensures { result ≡ more self made handed reported }
    {
        Account {
            made: self.made.saturating_add(made),
            handed: self.handed.saturating_add(handed),
            reported: self.reported.saturating_add(reported),
        }
    }

    // After a call of this kind on the channel, with its answer.
    #[tactic(auto, unfolding(crate::specs::Code::after_call))]
    fn after_call(self, kind: u8, a: Answer) -> Account
        ensures { result ≡ after_call kind a self }
    {
        match Kind::try_from(kind) {
            Ok(Kind::Snapshot) if a.is_accepted() => self.more(1, 0, 0),
            Ok(Kind::SnapshotRead) if a.is_accepted() => self.more(0, 1, 0),
            Ok(Kind::SnapshotRead) if a.tells(Refusal::Lost) => self.more(0, 0, a.value as u64),
            _ => self.more(0, 0, 0),
        }
    }
}

// The channels with empty queues. They are named by their places: what `iter_mut` lends of a record
// with a signed carry leaves a goal that did not close.
fn emptied(mut cs: [Channel; CHANNELS]) -> [Channel; CHANNELS]
    ensures { result ≡ all_emptied cs }
{
    for i in 0..CHANNELS {
        cs[i].held = 0;
    }
    cs
}

// A capture more for each channel that holds one, by their places as above.
fn after_held(mut accounts: [Account; CHANNELS], cs: [Channel; CHANNELS]) -> [Account; CHANNELS]
    ensures { result ≡ after_held cs accounts }
{
    for i in 0..CHANNELS {
        accounts[i] = accounts[i].more(u64::from(cs[i].held != 0), 0, 0);
    }
    accounts
}

// After an accepted step. It is taken with empty queues: nothing of what occurs in a step goes by
// these, and a channel that captures holds an entry then, also one whose own queue is full and
// whose lost count is at its end.
fn after_step(accounts: [Account; CHANNELS], board: Board, v: u32, w: u64) -> [Account; CHANNELS]
    ensures { result ≡ after_step v w board accounts }
{
    let empty = Board {
        channels: emptied(board.channels),
        ..board
    };
    after_held(accounts, empty.step(v, w).channels)
}

// The accounts at reset.
pub fn none() -> [Account; CHANNELS]
    ensures { result ≡ no_accounts }
{
    let nothing = Account {
        made: 0,
        handed: 0,
        reported: 0,
    };
    [nothing; CHANNELS]
}

// The accounts after one more event, which finds this board. The event is answered by
// `board::apply` as ever; this only tells what it adds.
pub fn go_on(mut accounts: [Account; CHANNELS], board: Board, event: Event) -> [Account; CHANNELS]
    ensures { result ≡ accounts_after (repaired_board board) event accounts }
{
    if calls::is_step(event) {
        return after_step(accounts, board.repair(), event.v, event.w);
    }
    let m = event.member as usize;
    if m < CHANNELS {
        let answer = board::apply(board, event).answer;
        accounts[m] = accounts[m].after_call(event.kind, answer);
    }
    accounts
}

// The five numbers of an account and its channel at the end.
pub fn balance_of(account: Account, c: Channel) -> Balance
    ensures { result ≡ balance_of account (repaired c) }
{
    let sound = c.repair();
    Balance {
        made: account.made,
        handed: account.handed,
        held: sound.held as u64,
        reported: account.reported,
        unreported: sound.lost as u64,
    }
}

// A board at reset, with nothing in the accounts.
pub fn start() -> Audit
    ensures board { result.board ≡ reset_board }
    ensures accounts { result.accounts ≡ no_accounts }
{
    Audit {
        board: board::reset(),
        accounts: none(),
    }
}

impl Audit {
    // After one event on the board.
    pub fn send(self, event: Event) -> Audit
        ensures board { result.board ≡ (applied self.board event).state }
        ensures accounts { result.accounts ≡ accounts_after (repaired_board self.board) event self.accounts }
    {
        Audit {
            board: board::apply(self.board, event).board,
            accounts: go_on(self.accounts, self.board, event),
        }
    }
}
