ghost use Rattle.std.specs.Prelude.{◌≡◌};
ghost use Rattle.use_session.specs.Unbuilt.{is_unbuilt, is_unbuilt_topic};

use soil_check::{Checked, Topic};

fn is_unbuilt_topic(topic: Topic) -> bool
    ensures { result ≡ is_unbuilt_topic topic }
{
    match topic {
        Topic::Class(_) | Topic::Model | Topic::State | Topic::Vars | Topic::Opstack => false,
        Topic::Script | Topic::Use => true,
    }
}

/// Whether the form of a checked command is not built yet.
pub(crate) fn is_unbuilt(command: &Checked) -> bool
    ensures { result ≡ is_unbuilt command.now }
{
    match command {
        Checked::Empty
        | Checked::Query { .. }
        | Checked::Check { .. }
        | Checked::Undo
        | Checked::Redo
        | Checked::Reset
        | Checked::Quit
        | Checked::Statements { .. }
        | Checked::Enter { .. }
        | Checked::Exit { .. } => false,
        Checked::Info(topic) => is_unbuilt_topic(*topic),
        Checked::Explain { .. } | Checked::Show(_) | Checked::Drop(_) => true,
    }
}
