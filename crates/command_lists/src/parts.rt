// A component of an insert, by the byte at which it stands.
ghost use Rattle.std.specs.Prelude.{◌≡◌, ◌<◌, length};
ghost use Rattle.command_lists.specs.Places.{insert_component_at};

use command_reading::{InsertComponent, SpliceTime};

// Table 10, the component that stands from byte `at` on.
pub(crate) fn insert_component(s: &[u8], at: usize, immediate: bool) -> InsertComponent
    requires { at < length s.now }
    ensures { result ≡ insert_component_at s.now at immediate }
{
    let time = if immediate {
        SpliceTime::Immediate
    } else {
        let next = at + 1;
        command_reading::splice_time(&s[next..])
    };
    InsertComponent {
        component_tag: bits::octet(s, at),
        time,
    }
}
