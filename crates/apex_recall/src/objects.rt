//! The objects of words.
ghost use Rattle.std.specs.Prelude.{◌≡◌, ℕ, List, false, length};
ghost use Rattle.apex_types.specs.declared.limits.TheConstants.{MOST_MESSAGES};
ghost use Rattle.apex_recall.specs.Objects.{messages_in, process_from};

use crate::values::{is_set, message_in};
use apex_buffer::Buffer;
use apex_flags::{Blackboard, EventFlag};
use apex_forms::{BLACKBOARD_WORDS, BUFFER_WORDS, EVENT_FLAG_WORDS, MUTEX_WORDS, SEMAPHORE_WORDS};
use apex_mutex::Mutex;
use apex_semaphore::Semaphore;
use apex_services::ProcessObject;
use apex_store::Object;
use apex_types::{MOST_MESSAGES, Message};
use arrayvec::ArrayVec;

/// A thing that words of a situation can change.
pub(crate) trait Restored: Drop {
    /// The number of its words.
    ghost WORDS: { ℕ };

    /// The thing of these words, with the parts of this one that never change.
    ghost restored: { Self → List ℕ → Self };

    /// The number of its words.
    const WORDS: usize;

    /// It is as these words say from now on.
    fn restore(&mut self, words: &[u64])
        requires { length words.now ≡ WORDS }
        ensures { self.new ≡ restored self.old words.now };
}

/// The messages of these words.
fn messages_in(words: &[u64]) -> ArrayVec<Message, MOST_MESSAGES>
    requires { length words.now ≡ MOST_MESSAGES }
    ensures { result.items ≡ messages_in words.now }
{
    let mut messages = ArrayVec::new();
    for word in words {
        if let Some(Message { origin, length }) = message_in(*word) {
            messages.push(Message { origin, length });
        }
    }
    messages
}

impl Restored for Semaphore {
    ghost use Rattle.apex_forms.specs.declared.objects.TheConstants.{SEMAPHORE_WORDS};
    ghost use Rattle.apex_recall.specs.Objects.{semaphore_from};

    ghost WORDS = { SEMAPHORE_WORDS };

    ghost restored = { semaphore_from };

    const WORDS: usize = SEMAPHORE_WORDS;

    fn restore(&mut self, words: &[u64]) {
        self.restore(is_set(words[0]), (words[1] % (1 << 16)) as u16);
    }
}

impl Restored for Buffer {
    ghost use Rattle.apex_forms.specs.declared.objects.TheConstants.{BUFFER_WORDS};
    ghost use Rattle.apex_recall.specs.Objects.{buffer_from};

    ghost WORDS = { BUFFER_WORDS };

    ghost restored = { buffer_from };

    const WORDS: usize = BUFFER_WORDS;

    fn restore(&mut self, words: &[u64]) {
        self.restore(is_set(words[0]), messages_in(&words[1..]));
    }
}

impl Restored for Blackboard {
    ghost use Rattle.apex_forms.specs.declared.objects.TheConstants.{BLACKBOARD_WORDS};
    ghost use Rattle.apex_recall.specs.Objects.{blackboard_from};

    ghost WORDS = { BLACKBOARD_WORDS };

    ghost restored = { blackboard_from };

    const WORDS: usize = BLACKBOARD_WORDS;

    fn restore(&mut self, words: &[u64]) {
        self.restore(is_set(words[0]), message_in(words[1]));
    }
}

impl Restored for EventFlag {
    ghost use Rattle.apex_forms.specs.declared.objects.TheConstants.{EVENT_FLAG_WORDS};
    ghost use Rattle.apex_recall.specs.Objects.{event_flag_from};

    ghost WORDS = { EVENT_FLAG_WORDS };

    ghost restored = { λ event_flag words. event_flag_from words };

    const WORDS: usize = EVENT_FLAG_WORDS;

    fn restore(&mut self, words: &[u64]) {
        self.restore(is_set(words[0]), is_set(words[1]));
    }
}

impl Restored for Mutex {
    ghost use Rattle.apex_forms.specs.declared.objects.TheConstants.{MUTEX_WORDS};
    ghost use Rattle.apex_recall.specs.Objects.{mutex_from};

    ghost WORDS = { MUTEX_WORDS };

    ghost restored = { λ mutex words. mutex_from words };

    const WORDS: usize = MUTEX_WORDS;

    fn restore(&mut self, words: &[u64]) {
        *self = Mutex::new();
        if is_set(words[0]) {
            self.make();
        }
    }
}

/// The process is created or not from now on.
pub(crate) fn restore_process(process: &mut ProcessObject, created: bool)
    ensures { process.new ≡ process_from created }
{
    *process = ProcessObject::new();
    if created {
        process.make();
    }
}
