// Workers in threads.
use bench_work::once::work_once;
use bench_work::work::NoGate;
use book::book::{Book, MOST_STEPS};
use book_crew::crew::{Crew, Order};
use book_refusals::fault::{BookFault, WorkFault};
use std::alloc::Global;
use std::sync::Wait;
use std::thread::Threads;

/// A crew of threads, which share the book by its lock.
#[derive(Drop)]
pub(crate) struct Threaded<'a, R> {
    pub rt: &'a R,
}

impl<R: Threads + Wait + Sync> Crew for Threaded<'_, R> {
    ghost use denote.Param.Send.{IsSync};

    ghost ready = { IsSync R.row };

    fn work(&mut self, alloc: Global, book: Book, order: Order) -> (Book, Result<u64, WorkFault>) {
        let Order {
            budget,
            workers,
            turns,
        } = order;
        if budget == 0 || budget > MOST_STEPS {
            return (book, Err(WorkFault::Book(BookFault::BadBudget)));
        }
        work_once(
            self.rt,
            alloc,
            book,
            budget,
            workers as usize,
            u64::from(turns),
            &NoGate,
        )
    }
}
