//! The words of the objects.
ghost use Rattle.std.specs.Prelude.{◌≡◌, length};
ghost use Rattle.apex_forms.specs.declared.objects.TheConstants.{BUFFER_WORDS};
ghost use Rattle.apex_forms.specs.Objects.{blackboard_words, buffer_words};
ghost use Rattle.apex_forms.specs.Objects.{event_flag_words, mutex_words, semaphore_words};

use crate::codes::{flag_word, message_word};
use crate::parts::{Stored, put};
use apex_buffer::Buffer;
use apex_flags::{Blackboard, EventFlag};
use apex_mutex::Mutex;
use apex_semaphore::Semaphore;
use apex_store::Object;
use apex_types::MOST_MESSAGES;

/// The words of a semaphore: created or not, and its value.
pub const SEMAPHORE_WORDS: usize = 2;

/// The words of a buffer: created or not, and its messages.
pub const BUFFER_WORDS: usize = 1 + MOST_MESSAGES;

/// The words of a blackboard: created or not, and its message.
pub const BLACKBOARD_WORDS: usize = 2;

/// The words of an event flag: created or not, and up or not.
pub const EVENT_FLAG_WORDS: usize = 2;

/// The word of a mutex: created or not.
pub const MUTEX_WORDS: usize = 1;

fn semaphore_words(semaphore: &Semaphore) -> [u64; SEMAPHORE_WORDS]
    ensures { result ≡ semaphore_words semaphore.now }
{
    [
        flag_word(semaphore.is_created()),
        u64::from(semaphore.value()),
    ]
}

/// Puts the words of the buffer into these.
fn put_buffer(buffer: &Buffer, words: &mut [u64])
    requires { length words.old ≡ BUFFER_WORDS }
    ensures { words.new ≡ buffer_words buffer.now }
{
    words[0] = flag_word(buffer.is_created());
    let messages = buffer.messages();
    for place in 0..messages.len() {
        words[1 + place] = message_word(Some(messages[place]));
    }
    for behind in messages.len()..MOST_MESSAGES {
        words[1 + behind] = 0;
    }
}

fn blackboard_words(blackboard: &Blackboard) -> [u64; BLACKBOARD_WORDS]
    ensures { result ≡ blackboard_words blackboard.now }
{
    [
        flag_word(blackboard.is_created()),
        message_word(blackboard.message()),
    ]
}

fn event_flag_words(event_flag: &EventFlag) -> [u64; EVENT_FLAG_WORDS]
    ensures { result ≡ event_flag_words event_flag.now }
{
    [
        flag_word(event_flag.is_created()),
        flag_word(event_flag.is_up()),
    ]
}

fn mutex_words(mutex: &Mutex) -> [u64; MUTEX_WORDS]
    ensures { result ≡ mutex_words mutex.now }
{
    [flag_word(mutex.is_created())]
}

impl Stored for Semaphore {
    ghost use Rattle.apex_forms.specs.Objects.{semaphore_words};

    ghost stored = { semaphore_words };

    fn put(&self, words: &mut [u64], at: usize) -> usize {
        put(words, at, &semaphore_words(self))
    }
}

impl Stored for Buffer {
    ghost use Rattle.apex_forms.specs.Objects.{buffer_words};

    ghost stored = { buffer_words };

    fn put(&self, words: &mut [u64], at: usize) -> usize {
        let end = at + BUFFER_WORDS;
        put_buffer(self, &mut words[at..end]);
        end
    }
}

impl Stored for Blackboard {
    ghost use Rattle.apex_forms.specs.Objects.{blackboard_words};

    ghost stored = { blackboard_words };

    fn put(&self, words: &mut [u64], at: usize) -> usize {
        put(words, at, &blackboard_words(self))
    }
}

impl Stored for EventFlag {
    ghost use Rattle.apex_forms.specs.Objects.{event_flag_words};

    ghost stored = { event_flag_words };

    fn put(&self, words: &mut [u64], at: usize) -> usize {
        put(words, at, &event_flag_words(self))
    }
}

impl Stored for Mutex {
    ghost use Rattle.apex_forms.specs.Objects.{mutex_words};

    ghost stored = { mutex_words };

    fn put(&self, words: &mut [u64], at: usize) -> usize {
        put(words, at, &mutex_words(self))
    }
}
