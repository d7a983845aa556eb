//! What holds of all sessions. The functions do nothing: their contracts are the laws.
ghost use Rattle.kernel_session.specs.Laws.{BusyFirstAndIdleLast, OrdersWhatIsWanted, SessionsGoOn};

/// Of what a served request brings, the status busy is the first broadcast and the status idle the last, unless the desk finds no memory. Behind
/// busy the desk gets the orders of the request, no broadcast among them, and behind idle the reply goes out.
pub fn busy_first_and_idle_last_law()
    ensures { BusyFirstAndIdleLast }
{}

/// Each request orders of the desk what the table has for it, in this order, and nothing else: an execution its cell with its user
/// expressions; a completion, an inspection, a question whether code is whole, a history and a question for the comms of all targets or
/// of the one that question, with all that it carries, and for the comms of another target nothing; an interrupt a ring, and a shutdown to
/// shut and then a ring; an opening for the one target its change and then the question whether its comm is open, and for another that
/// question; a close its change; a message on a comm that question too, and, where its comm is open, its move or the state. Of a post that
/// is refused the state is asked for.
pub fn orders_what_is_wanted_law()
    ensures { OrdersWhatIsWanted }
{}

/// The session of the events of two parts is that of the first part, and then that of the second.
pub fn sessions_go_on_law()
    ensures { SessionsGoOn }
{}
