//! Sets of facts, and the fact that has no word.

use apex_questions::{Fact, Facts, word_of};
use apex_types::ReturnCode;

#[test]
fn sets_have_their_facts(rt: HostRuntime) {
    let refused = Fact::Refused(ReturnCode::NotAvailable);
    let all = Facts::all();
    assert!(rt; all.contains(refused) && !all.contains(Fact::Response(1)));
    let others = all.without(refused).without(Fact::TimedOut);
    assert!(rt; !others.contains(refused) && others.contains(Fact::Ended));
    assert!(rt; !others.is_empty() && Facts::one(refused).without(refused).is_empty());
    assert!(rt; word_of(Fact::Response(3)).is_none());
}
