// What the tool's functions print is under no contract. Here those of which its answers are made are called by themselves, as
// a tool of others calls them, and succeed.
#![tactic(auto)]

#[cfg(test)]
mod tests {
    use console::command::Command;
    use engine::visit::Visit;
    use house::any_regime::AnyRegime;
    use page::slots::SlotHost;
    use preview::plain_run::PlainRun;
    use reader::file::read_script;
    use refusal::Refusal;
    use regime::rules::Regime;
    use tool::files::{answer_file, read, show, split, tell_script, write};
    use tool::help::help;
    use tool::levels::{compartments, ladder, make_levels, map, tell_flows, tell_pick};
    use tool::listing::list_file;
    use tool::previews::answer_run;
    use tool::tell::{refuse, tell, tell_done};
    use tool::visits::{tell_collect, tell_feed, tell_standing, tell_turn, tell_turns};

    // One level, an in channel of it, and an instruction that takes a value from the channel.
    const FILE: &[u8] = &[0x01, 0x01, 0x00, 0x01, 0x00, 0x01, 0x0A];

    #[test]
    fn files_are_answered(rt: HostRuntime) {
        assert!(rt; read(&rt, FILE).is_ok(), "read");
        assert!(rt; read(&rt, &[]).is_ok(), "no file");
        assert!(rt; show(&rt, FILE).is_ok(), "show");
        assert!(rt; split(&rt, FILE, 0).is_ok(), "split");
        assert!(rt; write(&rt, FILE, 8).is_ok(), "write");
        assert!(rt; list_file(&rt, FILE).is_ok(), "list");
        assert!(rt; help(&rt).is_ok(), "help");
    }

    #[test]
    fn scripts_are_told(rt: HostRuntime) {
        assert!(rt;
            answer_file(&rt, FILE, |script| tell_script(&rt, script)).is_ok(),
            "a script"
        );
        let mut channels = 0;
        let answered = answer_file(&rt, FILE, |script| {
            channels = script.channel_count;
            Ok(())
        });
        assert!(rt; answered.is_ok(), "its answer");
        assert_eq!(rt; channels, 1);
    }

    #[test]
    fn levels_are_made(rt: HostRuntime) {
        assert_eq!(rt; ladder(3).levels(), 3);
        assert_eq!(rt; compartments(2).levels(), 4);
        assert!(rt; map(2, [3; 16]).is_err(), "no order");
        let mut levels = None;
        assert!(rt;
            make_levels(&rt, &mut levels, map(0, [0; 16])).is_ok(),
            "refused"
        );
        assert!(rt; levels.is_none(), "no levels");
        assert!(rt;
            make_levels(&rt, &mut levels, Ok(ladder(3))).is_ok(),
            "levels"
        );
        assert!(rt; levels.is_some_and(|made| made.levels() == 3), "three");
        assert!(rt; tell_flows(&rt, levels, 0, 1).is_ok(), "flows");
        assert!(rt; tell_pick(&rt, levels, 0, 6).is_ok(), "pick");
    }

    #[test]
    fn answers_are_told(rt: HostRuntime) {
        assert!(rt; refuse(&rt, Refusal::Empty).is_ok(), "refuse");
        assert!(rt; tell(&rt, "held", Ok(7)).is_ok(), "tell");
        assert!(rt;
            tell_done(&rt, "put", Err(Refusal::Full)).is_ok(),
            "tell done"
        );
    }

    #[test]
    fn runs_are_answered(rt: HostRuntime) {
        let Ok(script) = read_script(FILE) else {
            return assert!(rt; false, "a script");
        };
        let mut run = PlainRun::new(script);
        assert!(rt; answer_run(&rt, &mut run, Command::Give(0)).is_ok(), "give");
        assert!(rt;
            answer_run(&rt, &mut run, Command::Add(0, 5)).is_ok(),
            "add"
        );
        assert!(rt; answer_run(&rt, &mut run, Command::Step).is_ok(), "step");
        assert_eq!(rt; run.copy().register(0), 5);
    }

    #[test]
    fn visits_are_answered(rt: HostRuntime) {
        let Ok(script) = read_script(FILE) else {
            return assert!(rt; false, "a script");
        };
        let mut visit: Visit<AnyRegime, SlotHost> = Visit::open(script, ladder(1), SlotHost::new());
        assert!(rt; tell_feed(&rt, &mut visit, 0, 5).is_ok(), "feed");
        assert!(rt; tell_collect(&rt, &mut visit, 0).is_ok(), "collect");
        assert!(rt; tell_turn(&rt, &mut visit).is_ok(), "turn");
        assert!(rt; tell_turns(&rt, &mut visit, 3).is_ok(), "turns");
        assert!(rt; tell_standing(&rt, &visit, 0).is_ok(), "ask");
        assert!(rt;
            visit.ask(0).is_ok_and(|standing| standing.steps == 1),
            "one step"
        );
    }
}
