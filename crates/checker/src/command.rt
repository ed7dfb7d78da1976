// What the words of a command line ask for.

// Which reasons a file is to hold.
#[derive(Clone, Copy, PartialEq, Eq, Debug)]
pub enum Kind {
    Table,
    Way,
}

#[derive(Clone, Copy, PartialEq, Eq, Debug)]
pub enum Command<'a> {
    Check {
        kind: Kind,
        rules: &'a str,
        file: &'a str,
    },
    Help,
}

impl<'a> Command<'a> {
    // The command of the words after the program's name; nothing where they are no command.
    pub fn parse(words: &'a [String]) -> Option<Command<'a>> {
        let (kind, rules, file) = match words {
            [word] if word.as_str() == "--help" => return Some(Command::Help),
            [kind, rules, file] => (kind.as_str(), rules.as_str(), file.as_str()),
            _ => return None,
        };
        let kind = match kind {
            "table" => Kind::Table,
            "way" => Kind::Way,
            _ => return None,
        };
        Some(Command::Check { kind, rules, file })
    }
}
