// Notes for the log.
ghost use Rattle.std.specs.Prelude.{◌≡◌, map, IfOk};
ghost use Rattle.eval_rules.specs.OutboxView.{note_of};

use eval_rules::outbox::Note;
use std::alloc::{AllocError, Global};

/// The same note, whose text is shared.
fn share_note(note: &Note) -> Result<Note, AllocError>
    ensures { IfOk result (λ n. note_of n ≡ note_of note.now) }
{
    match note {
        Note::Sent(message) => Ok(Note::Sent(*message)),
        Note::Waits(condition, message) => Ok(Note::Waits(*condition, *message)),
        Note::Resolved(promise) => Ok(Note::Resolved(*promise)),
        Note::Comment(words) => Ok(Note::Comment(words.share()?)),
    }
}

/// The same notes, whose texts are shared. Fails only for want of memory.
pub(crate) fn share_notes(alloc: Global, notes: &[Note]) -> Result<Vec<Note>, AllocError>
    ensures { IfOk result (λ all. map note_of all.items ≡ map note_of notes.now) }
{
    let mut all = Vec::with_capacity(alloc, notes.len())?;
    for note in notes {
        all.push(share_note(note)?)?;
    }
    Ok(all)
}
