//! The streams that a program has from the start.
ghost use Rattle.std.specs.Prelude.{◌≡◌};
ghost use Rattle.std.specs.Option.{option_map};
ghost use Rattle.commands.specs.Standards.{file_named, is_dash};

/// Standard input, standard output and standard error of a program.
#[derive(Drop)]
pub struct Standard<R, W, E> {
    /// Until it is taken.
    pub input: Option<R>,
    pub output: W,
    pub errors: E,
}

/// Whether a name is that of a standard stream.
pub fn is_dash(name: &str) -> bool
    ensures { result ≡ is_dash name.now }
{
    name == "-"
}

/// The name of a file; nothing where a standard stream is named, or nothing.
pub fn file_named<'a>(name: Option<&'a str>) -> Option<&'a str>
    ensures { option_map (λ it. it.now) result ≡ file_named (option_map (λ it. it.now) name.entry) }
{
    match name {
        Some(name) if !is_dash(name) => Some(name),
        _ => None,
    }
}
