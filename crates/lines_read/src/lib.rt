// Lines of the tool are read to their end where memory suffices: which no contract can say, so these are tests.
#![tactic(auto)]

#[cfg(test)]
mod tests {
    use console::command::Command;
    use text::error::LineError;
    use text::lines::parse_line;
    use text::words::{Words, given};
    use verb::{HostKind, Verb};

    #[test]
    fn rows_are_read(rt: HostRuntime) {
        assert_eq!(rt;
            Words::new(b"000f 0ff0").rows(),
            Ok([15, 4080, 0, 0, 0, 0, 0, 0, 0, 0, 0, 0, 0, 0, 0, 0])
        );
    }

    #[test]
    fn capacity_tables_are_read(rt: HostRuntime) {
        assert_eq!(rt;
            Words::new(b"1 65535").capacity_table(),
            Ok([1, 65535, 0, 0, 0, 0, 0, 0, 0, 0, 0, 0, 0, 0, 0, 0])
        );
    }

    // This and `bytes_are_read` are written out: their items differ in type.
    #[test]
    fn capacities_are_read(rt: HostRuntime) {
        let Ok(capacities) = Words::new(b"1 65535").capacities(rt.alloc()) else {
            return assert!(rt; false, "capacities");
        };
        assert_eq!(rt; capacities.as_slice(), [1, 65535].as_slice());
    }

    #[test]
    fn commands_are_made(rt: HostRuntime) {
        let Ok(Command::Flows { from, to }) = Command::of(
            Verb::Flows,
            rt.alloc(),
            &mut Words::new(b"3 7"),
        ) else {
            return assert!(rt; false, "flows");
        };
        assert_eq!(rt; (from, to), (3, 7));
        let Ok(Command::OwnHost(capacities)) = Command::of_kind(
            HostKind::Caps,
            &mut Words::new(b"4 5"),
        ) else {
            return assert!(rt; false, "caps");
        };
        assert_eq!(rt;
            capacities,
            [4, 5, 0, 0, 0, 0, 0, 0, 0, 0, 0, 0, 0, 0, 0, 0]
        );
        let Ok(Command::StripHost { count, entries }) = Command::of_kind(
            HostKind::Strip,
            &mut Words::new(b"3 65536"),
        ) else {
            return assert!(rt; false, "strip");
        };
        assert_eq!(rt; (count, entries), (3, 65536));
    }

    #[test]
    fn bytes_are_read(rt: HostRuntime) {
        let Ok(bytes) = Words::new(b"0aFf -").bytes(rt.alloc()) else {
            return assert!(rt; false, "bytes");
        };
        assert_eq!(rt; bytes.as_slice(), [10, 255].as_slice());
    }

    // A command of another's console.
    fn numbered(name: &[u8], words: &mut Words) -> Result<(usize, usize), LineError> {
        match name {
            b"two" => Ok((words.number()?, words.number()?)),
            _ => Err(LineError::Unknown),
        }
    }

    #[test]
    fn lines_of_another_console_are_parsed(rt: HostRuntime) {
        assert_eq!(rt;
            parse_line(rt.alloc(), b" two 3 7 ", numbered),
            Ok(Some((3, 7)))
        );
        assert_eq!(rt; parse_line(rt.alloc(), b"# two 3 7", numbered), Ok(None));
        assert_eq!(rt;
            parse_line(rt.alloc(), b"two 3 7 8", numbered),
            Err(LineError::Extra)
        );
        assert_eq!(rt;
            parse_line(rt.alloc(), b"one 3", numbered),
            Err(LineError::Unknown)
        );
        let Ok(Some(capacities)) = parse_line(
            rt.alloc(),
            b"host 4 5",
            |_, words| words.capacities(rt.alloc()),
        ) else {
            return assert!(rt; false, "capacities");
        };
        assert_eq!(rt; given(&[4, 5, 0, 6]), capacities.as_slice());
    }

    #[test]
    fn lines_are_parsed(rt: HostRuntime) {
        let Ok(Some(Command::Flows { from, to })) = Command::parse(rt.alloc(), b" flows 3 7 ")
        else {
            return assert!(rt; false, "flows");
        };
        assert_eq!(rt; (from, to), (3, 7));
        let Ok(Some(Command::Script(file))) = Command::parse(rt.alloc(), b"script 0aFf") else {
            return assert!(rt; false, "script");
        };
        assert_eq!(rt; file.as_slice(), [10, 255].as_slice());
        let Ok(Some(Command::Add(channel, value))) = Command::parse(rt.alloc(), b"add 3 -7") else {
            return assert!(rt; false, "add");
        };
        assert_eq!(rt; (channel, value), (3, -7));
        assert!(rt;
            matches!(Command::parse(rt.alloc(), b"# flows 3 7"), Ok(None)),
            "a line for people"
        );
        assert!(rt;
            matches!(
                Command::parse(rt.alloc(), b"flows 3 7 8"),
                Err(LineError::Extra)
            ),
            "a word too many"
        );
    }
}
