//! What holds of the messages of every answer. The functions do nothing: their contracts are the laws.
ghost use Rattle.kernel_message.specs.Laws.{NumberedInOrder, NextCountsMessages, AnswerTheirRequest, AnswersAreEqual};

/// The messages of an answer are numbered without a gap from the stamp's next number on: the reply, then the broadcasts.
pub fn numbered_in_order_law()
    ensures { NumberedInOrder }
{}

/// The next number rises by the number of messages.
pub fn next_counts_messages_law()
    ensures { NextCountsMessages }
{}

/// The parent header of the reply and of each broadcast is the header of the request.
pub fn answer_their_request_law()
    ensures { AnswerTheirRequest }
{}

/// Two answers to one request that say the same, under stamps that say the same, are the same messages octet for octet.
pub fn answers_are_equal_law()
    ensures { AnswersAreEqual }
{}
