// What the arguments of `run` ask for.
ghost use Rattle.std.specs.Prelude.{◌<◌, IfSome};

// Where the moves come from.
#[derive(Clone, Copy, PartialEq, Eq, Debug)]
pub enum Source<'a> {
    // a person is asked for each
    Asked,
    // all of standard input, with a file for the log of the play, if one is named
    Piped { log: Option<&'a str> },
}

// Two files, the number of a start as it was written, and where the moves come from.
#[derive(Clone, Copy, PartialEq, Eq, Debug)]
pub struct Order<'a> {
    pub rules: &'a str,
    pub table: &'a str,
    pub start: &'a str,
    pub source: Source<'a>,
}

impl<'a> Order<'a> {
    // What the words ask for; nothing where they are no such order.
    pub fn parse(words: &'a [String]) -> Option<Order<'a>> {
        let [rules, table, options @ ..] = words else {
            return None;
        };
        let mut start = None;
        let mut log = None;
        let mut ask = false;
        let mut options = options.iter();
        while let Some(option) = options.next() {
            match option.as_str() {
                "--ask" => ask = true,
                "--start" => start = Some(options.next()?.as_str()),
                "--log" => log = Some(options.next()?.as_str()),
                _ => return None,
            }
        }
        let source = match (ask, log) {
            (true, Some(_)) => return None,
            (true, None) => Source::Asked,
            (false, log) => Source::Piped { log },
        };
        Some(Order {
            rules: rules.as_str(),
            table: table.as_str(),
            start: start.unwrap_or("0"),
            source,
        })
    }
}

// The number of a start among as many as there are.
pub fn start_number(text: &str, count: u8) -> Option<u8>
    ensures { IfSome result (λ n. n < count) }
{
    text.parse::<u8>().ok().filter(|n| *n < count)
}
