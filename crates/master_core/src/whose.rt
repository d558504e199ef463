// Whose the lines are that the master sends nodes.
ghost use Rattle.std.specs.Prelude.{◌≡◌, ℕ, List, All, None};
ghost use Rattle.master_core.specs.Step.{line_step};
ghost use Rattle.master_core.specs.Whose.{IsOf, TellNobody};
ghost use Rattle.master_core.specs.declared.master.Master.{Master};
ghost use Rattle.master_core.specs.declared.sender.Sender.{Sender};
ghost use Rattle.mupdate_codec.specs.Asks.{line_ask};

/// What the master sends nodes for a line is of the command whose line it is, or nobody's, whoever sends it and whatever the table is. A line
/// that is nobody's leaves each stream under a tag that is nobody's.
pub fn a_line_is_answered_under_its_tag()
    ensures whose { (master : Master) (from : Sender) (line : List ℕ) → TellNobody master.streams → All (IsOf (line_ask line)) (line_step master from line).outs }
    ensures streams { (master : Master) (from : Sender) (line : List ℕ) → TellNobody master.streams → line_ask line ≡ None
        → TellNobody (line_step master from line).master.streams }
{}
