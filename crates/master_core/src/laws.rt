// Laws of the master, whoever sends it lines.
ghost use Rattle.std.specs.Prelude.{◌≡◌, ℕ, List, Option, None, Some};
ghost use Rattle.mupdate_codec.specs.declared.command.MCommand.{MCommand};
ghost use Rattle.mupdate_codec.specs.declared.tag.Tag.{Tag};
ghost use Rattle.mupdate_codec.specs.Commands.{IsCommandLine};
ghost use Rattle.master_core.specs.declared.master.Master.{Master};
ghost use Rattle.node_record.specs.declared.master.MasterRecord.{MasterRecord};
ghost use Rattle.master_core.specs.declared.sender.Sender.{Sender};
ghost use Rattle.master_core.specs.declared.sender.Sender.TheVariants.{Outside};
ghost use Rattle.mupdate_codec.specs.Whole.{command_in};
ghost use Rattle.master_core.specs.Outside.{bytes_in};
ghost use Rattle.master_core.specs.Servers.{name_of, IsByServer};
ghost use Rattle.master_core.specs.Step.{line_step};

/// Bytes are a command exactly if they are its line.
pub fn a_line_is_its_command()
    ensures is { (line : List ℕ) (it : Tag × MCommand) → IsCommandLine line it → command_in line ≡ Some it }
    ensures only { (line : List ℕ) (it : Tag × MCommand) → command_in line ≡ Some it → IsCommandLine line it }
{}

/// A line from outside changes no record and writes no entry, and neither do the bytes of an outside connection.
pub fn an_outside_line_changes_no_record()
    ensures entry { (master : Master) (conn : ℕ) (line : List ℕ) → (line_step master (Outside conn) line).entry ≡ None }
    ensures line { (master : Master) (conn : ℕ) (line : List ℕ) → (line_step master (Outside conn) line).master.table ≡ master.table }
    ensures bytes { (master : Master) (conn : ℕ) (piece : List ℕ) → (bytes_in master conn piece).master.table ≡ master.table }
{}

/// Only the backend at which a name has its record changes it.
pub fn a_record_is_changed_by_its_server()
    ensures { (master : Master) (from : Sender) (line : List ℕ) (entry : MasterRecord) → (line_step master from line).entry ≡ Some entry
        → IsByServer master.table from (name_of entry) }
{}
