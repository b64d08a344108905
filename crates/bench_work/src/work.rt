//! Workers in threads of their own, whose results one committer gives: the thread that started them.
//!
//! What is known of a seat goes through a channel in the type of the message, since nothing else is known of what comes through one.
ghost use Rattle.std.specs.Prelude.{◌≡◌, ◌≤◌, ◌∷◌, [], All, IfOk, IfErr, sum_by};
ghost use Rattle.bench.specs.Seats.{turns_in};
ghost use Rattle.bench_work.specs.Seats.{AreWork};
ghost use Rattle.bench.specs.SharedBook.{events_of};
ghost use Rattle.book_crew.specs.Work.{StopsWork};

use crate::pile::Pile;
use crate::workplace::Workplace;
use bench::pick::Pick;
use bench::seat::{Opening, Seat};
use book_refusals::fault::{BookFault, WorkFault};
use crossbeam_channel::{Receiver, Sender, bounded};
use ids::names::{EventName, MsgId};
use std::alloc::Global;
use std::sync::Wait;
use std::thread;
use std::thread::{Builder, Threads};
use turn::ticket::{Out, Ran, Returned, Ticket};

/// The bytes of a worker's stack, on which turns of a thousand levels are to fit, each as deep as a tree may be.
pub const STACK: usize = 64 << 20;

/// Called outside of the lock, round the run of each turn, with the turn's message.
pub trait Gate {
    fn before_turn(&self, message: MsgId);

    fn after_turn(&self, message: MsgId);
}

/// A gate that holds no turn.
pub struct NoGate;

impl Gate for NoGate {
    fn before_turn(&self, _message: MsgId) {}

    fn after_turn(&self, _message: MsgId) {}
}

/// The seats of the workers, none with an open ticket, and the number of turns in their lists.
#[derive(Drop)]
pub struct Worked<L: Opening> {
    pub seats: Vec<Seat<L>>,
    pub turns: u64,
}

/// A seat with no open ticket.
#[derive(Drop)]
pub(crate) struct Free<L: Opening> {
    pub seat: Seat<L>,
    ghost none: { seat.deeds.tickets ≡ [] },
    ghost work: { AreWork (events_of seat.deeds) },
}

/// A worker's seat with a ticket that was run, which alone is open with it.
#[derive(Drop)]
struct Busy<L: Opening> {
    worker: usize,
    seat: Seat<L>,
    returned: Returned,
    ghost one: { seat.deeds.tickets ≡ returned.carried.event ∷ [] },
    ghost work: { AreWork (events_of seat.deeds) },
}

/// How a worker goes on: it waits for its seat, has it, or ends with it.
#[derive(Drop)]
enum Next<L: Opening> {
    Sent,
    Has(Free<L>),
    Ends(Free<L>),
}

/// The ends of a worker's channels: its way to the committer, and the committer's way back to it.
#[derive(Drop)]
struct Channels<L: Opening> {
    to: Sender<Busy<L>>,
    back: Sender<Free<L>>,
    mine: Receiver<Free<L>>,
}

fn idle<L: Opening>(seat: Seat<L>) -> Free<L>
    requires tickets { seat.deeds.tickets ≡ [] }
    requires work { AreWork (events_of seat.deeds) }
{
    Free { seat }
}

fn loaded<L: Opening>(worker: usize, seat: Seat<L>, returned: Returned) -> Busy<L>
    requires tickets { seat.deeds.tickets ≡ returned.carried.event ∷ [] }
    requires work { AreWork (events_of seat.deeds) }
{
    Busy {
        worker,
        seat,
        returned,
    }
}

/// The seat whose one open ticket cannot be given: it is abandoned.
fn let_go<L: Opening, P: Workplace<L>, R: Wait>(
    rt: &R,
    place: &P,
    seat: Seat<L>,
    number: EventName,
) -> Free<L>
    requires tickets { seat.deeds.tickets ≡ number ∷ [] }
    requires work { AreWork (events_of seat.deeds) }
{
    let mut seat = seat;
    place.abandon(rt, number, &mut seat);
    idle(seat)
}

/// Gives a ticket. Where it is refused, it is discarded, and is no longer open. False where its worker is to end.
fn settle<L: Opening, P: Workplace<L>, R: Wait>(
    rt: &R,
    place: &P,
    seat: Seat<L>,
    ticket: Ticket<Ran>,
) -> (Free<L>, bool)
    requires tickets { seat.deeds.tickets ≡ ticket.carried.event ∷ [] }
    requires work { AreWork (events_of seat.deeds) }
{
    let mut seat = seat;
    match place.give(rt, ticket, &mut seat) {
        Ok(_) => (idle(seat), true),
        Err((ticket, fault)) => {
            let number = ticket.ran().carried.event;
            ticket.discard();
            match fault {
                BookFault::Stale => (idle(seat), true),
                BookFault::NoTicket => (let_go(rt, place, seat, number), true),
                _ => (let_go(rt, place, seat, number), false),
            }
        }
    }
}

/// Runs a turn, with the gate round it. For want of memory its ticket is abandoned.
fn run_turn<L: Opening, P: Workplace<L>, G: Gate, R: Wait>(
    rt: &R,
    place: &P,
    gate: &G,
    worker: usize,
    seat: Seat<L>,
    ticket: Ticket<Out>,
) -> Result<Busy<L>, Free<L>>
    requires tickets { seat.deeds.tickets ≡ ticket.carried.event ∷ [] }
    requires work { AreWork (events_of seat.deeds) }
{
    let message = ticket.carried().name;
    gate.before_turn(message);
    let ran = ticket.run();
    gate.after_turn(message);
    match ran {
        Ok(ran) => Ok(loaded(worker, seat, ran.seal())),
        Err((ticket, _)) => {
            let number = ticket.carried().event;
            ticket.discard();
            Err(let_go(rt, place, seat, number))
        }
    }
}

/// What a worker does once, as far as the channel.
fn one_turn<L: Opening, P: Workplace<L>, G: Gate, R: Wait>(
    rt: &R,
    place: &P,
    gate: &G,
    worker: usize,
    to: &Sender<Busy<L>>,
    at: Free<L>,
) -> Next<L> {
    let Free { seat } = at;
    let mut seat = seat;
    match place.checkout(rt, &mut seat) {
        Ok(Pick::Turn(ticket)) => match run_turn(rt, place, gate, worker, seat, ticket) {
            Ok(busy) => hand_over(rt, place, to, busy),
            Err(free) => Next::Ends(free),
        },
        Ok(Pick::Moved(_)) => Next::Has(idle(seat)),
        Ok(Pick::Nothing) => Next::Ends(idle(seat)),
        Err(_) => Next::Ends(idle(seat)),
    }
}

/// Sends a result to the committer. Where that is refused, the worker opens and gives by itself.
fn hand_over<L: Opening, P: Workplace<L>, R: Wait>(
    rt: &R,
    place: &P,
    to: &Sender<Busy<L>>,
    busy: Busy<L>,
) -> Next<L> {
    match to.send(rt, busy) {
        Ok(()) => Next::Sent,
        Err(refused) => match give_here(rt, place, refused.into_inner()) {
            (free, true) => Next::Has(free),
            (free, false) => Next::Ends(free),
        },
    }
}

/// Opens a result and gives it.
fn give_here<L: Opening, P: Workplace<L>, R: Wait>(
    rt: &R,
    place: &P,
    busy: Busy<L>,
) -> (Free<L>, bool) {
    let Busy {
        worker: _,
        seat,
        returned,
    } = busy;
    settle(rt, place, seat, returned.unseal())
}

/// A worker, to its end. It answers its seat where it has it then.
fn run_worker<L: Opening, P: Workplace<L>, G: Gate, R: Wait>(
    rt: &R,
    place: &P,
    gate: &G,
    worker: usize,
    to: Sender<Busy<L>>,
    mine: Receiver<Free<L>>,
) -> Option<Free<L>> {
    let mut at = idle(place.seat(rt)?);
    for _ in rt.forever() {
        match one_turn(rt, place, gate, worker, &to, at) {
            Next::Sent => match mine.recv(rt) {
                Ok(free) => at = free,
                Err(_) => return None,
            },
            Next::Has(free) => at = free,
            Next::Ends(free) => return Some(free),
        }
    }
    unreachable!()
}

/// Sends a seat back to its worker, or keeps it where that is refused.
fn send_back<L: Opening, R: Wait>(
    rt: &R,
    back: Option<&Sender<Free<L>>>,
    free: Free<L>,
) -> Option<Free<L>> {
    match back {
        Some(back) => match back.send(rt, free) {
            Ok(()) => None,
            Err(refused) => Some(refused.into_inner()),
        },
        None => Some(free),
    }
}

/// One result: it is given, and its seat goes back, or stays here and its worker ends.
fn take_result<L: Opening, P: Workplace<L>, R: Wait>(
    rt: &R,
    place: &P,
    backs: &mut Vec<Option<Sender<Free<L>>>>,
    pile: &mut Pile<L>,
    busy: Busy<L>,
) {
    let worker = busy.worker;
    let (free, goes_on) = give_here(rt, place, busy);
    let Some(back) = backs.get_mut(worker) else {
        pile.add(free);
        return;
    };
    let kept = if goes_on {
        send_back(rt, back.as_ref(), free)
    } else {
        Some(free)
    };
    if let Some(free) = kept {
        *back = None;
        pile.add(free);
    }
}

/// Gives each result until the workers are gone.
fn commit_all<L: Opening, P: Workplace<L>, R: Wait>(
    rt: &R,
    place: &P,
    results: Receiver<Busy<L>>,
    backs: Vec<Option<Sender<Free<L>>>>,
    pile: &mut Pile<L>,
) {
    let mut backs = backs;
    for _ in rt.forever() {
        let Ok(busy) = results.recv(rt) else {
            break;
        };
        take_result(rt, place, &mut backs, pile, busy);
    }
}

/// Has workers, as many as this if they can be started, do what may be done at their place, each with a seat of its own.
///
/// # Errors
/// As `work_at_bench`.
pub(crate) fn work_at<
    L: Opening + Send + Sync,
    P: Workplace<L> + Sync,
    G: Gate + Sync,
    R: Threads + Wait + Sync,
>(
    rt: &R,
    alloc: Global,
    place: &P,
    workers: usize,
    turns: u64,
    gate: &G,
) -> Result<Worked<L>, WorkFault>
    ensures open { IfOk result (λ w. All (λ s. (s.deeds.tickets ≡ []) × AreWork (events_of s.deeds)) w.seats.items) }
    ensures turns { IfOk result (λ w. (w.turns ≡ sum_by (λ s. turns_in (events_of s.deeds)) w.seats.items) × (w.turns ≤ turns)) }
    ensures err { IfErr result (λ fault. StopsWork fault) }
{
    let Ok(pile) = Pile::with_room(alloc, workers) else {
        return Err(WorkFault::Book(BookFault::Memory));
    };
    let Some(pile) = run_all(rt, alloc, place, workers, gate, pile) else {
        return Err(WorkFault::NoWorker);
    };
    Ok(pile.into_worked(turns))
}

/// The channels of one more worker; none where there is no memory for them.
fn channels_of<L: Opening>(alloc: Global, to: &Sender<Busy<L>>) -> Option<Channels<L>> {
    let (back, mine) = bounded::<Free<L>, Global>(alloc, 1).ok()?;
    let to = to.clone().ok()?;
    Some(Channels { to, back, mine })
}

/// Starts workers and gives what they send until they are gone. None where no worker could be started.
fn run_all<
    L: Opening + Send + Sync,
    P: Workplace<L> + Sync,
    G: Gate + Sync,
    R: Threads + Wait + Sync,
>(rt: &R, alloc: Global, place: &P, workers: usize, gate: &G, pile: Pile<L>) -> Option<Pile<L>> {
    let (to, results) = bounded::<Busy<L>, Global>(alloc, workers).ok()?;
    let mut threads = Vec::with_capacity(alloc, workers).ok()?;
    let mut backs = Vec::with_capacity(alloc, workers).ok()?;
    thread::scope(thread::scope_env(), rt, move |scope| -> Option<Pile<L>> {
        let mut pile = pile;
        for _ in 0..workers {
            let Some(Channels { to, back, mine }) = channels_of(alloc, &to) else {
                continue;
            };
            let worker = backs.len();
            let run = move || run_worker(rt, place, gate, worker, to, mine);
            if let Ok(thread) = Builder::new().stack_size(STACK).spawn_scoped(scope, run) {
                let _ = threads.push(thread);
                let _ = backs.push(Some(back));
            }
        }
        drop(to);
        if threads.is_empty() {
            return None;
        }
        commit_all(rt, place, results, backs, &mut pile);
        for thread in threads {
            if let Some(free) = thread.join(rt) {
                pile.add(free);
            }
        }
        Some(pile)
    })
}
