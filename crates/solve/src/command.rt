// What the words of a command line ask for.

// The rules file, and where to write the table and the way, if anywhere.
#[derive(Clone, Copy, PartialEq, Eq, Debug)]
pub struct Task<'a> {
    pub rules: &'a str,
    pub table: Option<&'a str>,
    pub way: Option<&'a str>,
}

#[derive(Clone, Copy, PartialEq, Eq, Debug)]
pub enum Command<'a> {
    Solve(Task<'a>),
    Help,
}

impl<'a> Command<'a> {
    // The command of the words after the program's name, RULES [--table FILE] [--way FILE] or --help; nothing where they are no command.
    pub fn parse(words: &'a [String]) -> Option<Command<'a>> {
        let (rules, options) = words.split_first()?;
        if rules.as_str() == "--help" {
            return Some(Command::Help);
        }
        let mut task = Task {
            rules: rules.as_str(),
            table: None,
            way: None,
        };
        for option in options.chunks(2) {
            let [name, file] = option else {
                return None;
            };
            match name.as_str() {
                "--table" => task.table = Some(file.as_str()),
                "--way" => task.way = Some(file.as_str()),
                _ => return None,
            }
        }
        Some(Command::Solve(task))
    }
}
