//! What holds of all answers. The functions do nothing: their contracts are the laws. That the messages are numbered without a gap in
//! their order, and that their parent header is the header of the request, are laws of `kernel_message`.
ghost use Rattle.kernel_reply.specs.Laws.{JobsEndIdle, AsksEndIdle, RefusalsEndIdle, EndsAreReplied, RefusalsAreReplied, AnswersAreReplied};
ghost use Rattle.kernel_reply.specs.Laws.{JobsSayTheSame, RefusalsSayTheSame};
ghost use Rattle.kernel_reply.specs.Laws.{OpensPastTheLimitClose, OpensOfOpenComms, OpensForOtherTargetsClose, OtherTargetsHaveNone};
ghost use Rattle.kernel_reply.specs.Laws.{ListsEachCommOnce, ListsEachWithItsTarget};
ghost use Rattle.kernel_reply.specs.Laws.{TellsEachNameOnce, TellsValuesByName};

/// The last message of an answer to a job is the status idle.
pub fn jobs_end_idle_law()
    ensures { JobsEndIdle }
{}

/// The last message of an answer that is given at once is the status idle.
pub fn asks_end_idle_law()
    ensures { AsksEndIdle }
{}

/// The last message of an answer to a refused post is the status idle.
pub fn refusals_end_idle_law()
    ensures { RefusalsEndIdle }
{}

/// By the text that a request brought, what is said of its job, or of its refusal, is the same as where the request has kept the text.
pub fn texts_are_handed_on_law()
    ensures jobs { JobsSayTheSame }
    ensures refusals { RefusalsSayTheSame }
{}

/// Where what is told belongs to the request, be it a job that ended, the refusal of a post or an answer, each request has a reply of its own
/// type, as `execute_reply` to an `execute_request`; but a message on comms has none, whatever is told.
pub fn requests_are_replied_law()
    ensures ends { EndsAreReplied }
    ensures refusals { RefusalsAreReplied }
    ensures answers { AnswersAreReplied }
{}

/// An open of a comm while as many are open as may be is answered by a close of it, and opens nothing.
pub fn opens_past_the_limit_close_law()
    ensures { OpensPastTheLimitClose }
{}

/// An open of a comm that is open opens nothing: it is answered by the status alone, or by a close of its id where it is for another target.
pub fn opens_of_open_comms_law()
    ensures { OpensOfOpenComms }
{}

/// An open of a comm for another target is answered by a close of its id, whatever comms are open.
pub fn opens_for_other_targets_close_law()
    ensures { OpensForOtherTargetsClose }
{}

/// A request for the comms of another target is told that there are none, whatever was answered.
pub fn other_targets_have_none_law()
    ensures { OtherTargetsHaveNone }
{}

/// The list of open comms names each of the ids that it is handed once, in the order of their octets, and no other; under each stands
/// an open comm with its target.
pub fn lists_each_comm_once_law()
    ensures names { ListsEachCommOnce }
    ensures targets { ListsEachWithItsTarget }
{}

/// Of the values of expressions each name is told once, in the order of octets, and no other; under the name of the k-th value stands what
/// is told of that value, unless a later one has the same name.
pub fn tells_values_by_name_law()
    ensures names { TellsEachNameOnce }
    ensures values { TellsValuesByName }
{}
