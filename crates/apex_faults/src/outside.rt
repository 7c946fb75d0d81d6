//! The services of ARINC 653 Part 1 that this profile leaves out.
ghost use Rattle.std.specs.Prelude.{◌≡◌, map, option_map};
ghost use Rattle.apex_faults.specs.Outside.{left_out, left_out_in, view};

/// A service that this profile leaves out.
#[derive(Clone, Copy)]
pub struct LeftOut {
    /// The service's word.
    pub word: &'static str,
    /// The word of the service that this profile has in its place, if it has one.
    pub instead: Option<&'static str>,
}

macro_rules! left_out {
    ($($word:literal $instead:expr;)*) => {
        [$(LeftOut { word: $word, instead: $instead }),*]
    };
}

/// The services that this profile leaves out (ARINC 653 Part 1).
static LEFT_OUT: [LeftOut; 21] = left_out! {
    "LOCK_PREEMPTION" Some("ACQUIRE_MUTEX");
    "UNLOCK_PREEMPTION" Some("RELEASE_MUTEX");
    "GET_MY_INDEX" Some("GET_MY_ID");
    "RESET_MUTEX" None;
    "GET_PROCESS_MUTEX_STATE" Some("GET_MUTEX_STATUS");
    "CREATE_SAMPLING_PORT" Some("CREATE_BLACKBOARD");
    "WRITE_SAMPLING_MESSAGE" Some("DISPLAY_BLACKBOARD");
    "READ_SAMPLING_MESSAGE" Some("READ_BLACKBOARD");
    "GET_SAMPLING_PORT_ID" Some("GET_BLACKBOARD_ID");
    "GET_SAMPLING_PORT_STATUS" Some("GET_BLACKBOARD_STATUS");
    "CREATE_QUEUING_PORT" Some("CREATE_BUFFER");
    "SEND_QUEUING_MESSAGE" Some("SEND_BUFFER");
    "RECEIVE_QUEUING_MESSAGE" Some("RECEIVE_BUFFER");
    "GET_QUEUING_PORT_ID" Some("GET_BUFFER_ID");
    "GET_QUEUING_PORT_STATUS" Some("GET_BUFFER_STATUS");
    "CLEAR_QUEUING_PORT" None;
    "REPORT_APPLICATION_MESSAGE" None;
    "CREATE_ERROR_HANDLER" None;
    "CONFIGURE_ERROR_HANDLER" None;
    "GET_ERROR_STATUS" None;
    "RAISE_APPLICATION_ERROR" None;
};

fn left_out_in(rows: &'static [LeftOut], word: &str) -> Option<&'static LeftOut>
    ensures { option_map (λ row. view row.now) result
        ≡ left_out_in (map view rows.now) word.now }
{
    for row in rows {
        if row.word == word {
            return Some(row);
        }
    }
    None
}

/// The service of this word, if it is one that this profile leaves out.
pub fn left_out(word: &str) -> Option<&'static LeftOut>
    ensures { option_map (λ row. view row.now) result ≡ left_out_in left_out word.now }
{
    left_out_in(&LEFT_OUT, word)
}
