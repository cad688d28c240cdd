ghost use Rattle.std.specs.Prelude.{◌≡◌, List, ℕ, option_map};
ghost use Rattle.clap.specs.Matches.{found_of};
ghost use Rattle.clap.specs.Walk.{first_of, rows_of};
ghost use Rattle.use_words.specs.CommandLine.{is_set};

use clap::ArgMatches;

/// Whether a flag of this name was found.
pub(crate) fn is_set(matches: &ArgMatches<'_>, name: &str) -> bool
    ensures { result ≡ is_set name.now (rows_of (found_of matches.now)) }
{
    matches.get_one::<bool>(name).unwrap_or(false)
}

/// The word that was found for an argument of this name.
pub(crate) fn word<'a>(matches: &ArgMatches<'a>, name: &str) -> Option<&'a str>
    ensures { option_map (λ s. s.now) result ≡ first_of name.now (rows_of (found_of matches.now)) }
{
    matches.get_str(name)
}
