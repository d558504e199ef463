// Where a CREATE or DELETE is after each step of its backend and of the master.
ghost use Rattle.name_commands.specs.AllCommands.{AnswersTell, AsksTell, ClientsTell, LinesTell, OthersTell, TellsFirst, TellsOneToOne, UpsTell};
ghost use Rattle.name_commands.specs.BackSteps.{AnswerMoves, AskMoves, MessagesLeave, NoneAtFirst, NoneBegins, OtherAnswersLeave, OtherAsksLeave};
ghost use Rattle.name_commands.specs.MasterSteps.{ClientsPass, LineTaken, LineTakenAlone, OtherLinesPass, OtherNodesPass};
ghost use Rattle.name_commands.specs.PutOff.{AskedMoves, TestedMoves};

/// The backend takes the ask of a command that is nowhere: it is answered, by what its refusal tells, it waits for the end of the resync, or the line of
/// its flow is sent; and that alone goes out about it. An answer puts it off.
pub fn an_ask_is_answered_waits_or_sends_its_line()
    ensures moves { AskMoves }
    ensures asked { AskedMoves }
{}

/// The backend takes the response to a command's line: the command is answered, or its next line is sent, as stage and response tell.
pub fn a_response_answers_or_sends_the_next_line()
    ensures { AnswerMoves }
{}

/// Whatever else the master says, a command stays where it is, unless that ends the resync for which it waits: then it is answered, or its line is sent.
pub fn the_end_of_a_resync_tests_those_that_waited()
    ensures leaves { OtherAnswersLeave }
    ensures tested { TestedMoves }
{}

/// The master takes a command's line: it sends its backend one response, under the same tag, and the step's mark is that of the reply. No other backend
/// hears of it.
pub fn a_line_has_one_response()
    ensures one { LineTaken }
    ensures alone { LineTakenAlone }
{}

/// No command is at a new backend, nor when its link comes up. A step for something else leaves a command where it is, and lets out nothing about it:
/// the backend takes what another node than the master sends, or an ask for messages; the master takes another message of the backend, anything of
/// another node, or what a client from outside does.
pub fn any_other_step_leaves_a_command()
    ensures first { NoneAtFirst }
    ensures begins { NoneBegins }
    ensures asks { OtherAsksLeave }
    ensures messages { MessagesLeave }
    ensures lines { OtherLinesPass }
    ensures nodes { OtherNodesPass }
    ensures clients { ClientsPass }
{}

/// Each command is in one place when the link comes up first, and stays so in each step of the backend and of the master. So flows and lines belong to
/// each other one to one.
pub fn each_command_is_in_one_place()
    ensures first { TellsFirst }
    ensures asks { AsksTell }
    ensures hears { AnswersTell }
    ensures takes { LinesTell }
    ensures others { OthersTell }
    ensures ups { UpsTell }
    ensures clients { ClientsTell }
    ensures flows { TellsOneToOne }
{}
