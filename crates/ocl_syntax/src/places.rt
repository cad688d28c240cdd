ghost use Rattle.std.specs.Prelude.{◌≡◌};
ghost use Rattle.std.specs.Option.{option_copied};
ghost use Rattle.ocl_syntax.specs.Places.{bare_name, first_place, place, ungrouped};

use crate::Written;
use class_decls::Name;
use use_text::Place;

impl Written {
    /// The place of its first token.
    pub fn first_place(&self) -> Place
        ensures { result ≡ first_place self.now }
    {
        match self {
            Written::TooDeep(place)
            | Written::Literal(place, _)
            | Written::OnlyLiteral(place, _)
            | Written::Collection(place, _, _)
            | Written::If(place, _, _, _)
            | Written::Let(place, _, _, _, _)
            | Written::Unary(place, _, _)
            | Written::Group(place, _) => *place,
            Written::Named(name, _, _, _) => name.place,
            Written::Binary(_, _, left, _) => left.get().first_place(),
            Written::Dot(source, _, _, _) => source.get().first_place(),
            Written::Arrow(source, _, _) => source.get().first_place(),
        }
    }

    /// The place at which it is spoken of: that of an operator's token, of a property's name, of a
    /// bind's name, and of the first token of any other form; of parentheses that of what is in
    /// them.
    pub fn place(&self) -> Place
        ensures { result ≡ place self.now }
    {
        match self {
            Written::TooDeep(place)
            | Written::Literal(place, _)
            | Written::OnlyLiteral(place, _)
            | Written::Collection(place, _, _)
            | Written::If(place, _, _, _)
            | Written::Unary(place, _, _)
            | Written::Binary(place, _, _, _) => *place,
            Written::Named(name, _, _, _)
            | Written::Let(_, name, _, _, _)
            | Written::Dot(_, name, _, _)
            | Written::Arrow(_, name, _) => name.place,
            Written::Group(_, inner) => inner.get().place(),
        }
    }

    /// What is in the parentheses around it, or itself.
    pub fn ungrouped(&self) -> &Written
        ensures { result.now ≡ ungrouped self.now }
    {
        match self {
            Written::Group(_, inner) => inner.get().ungrouped(),
            _ => self,
        }
    }

    /// The name that it is, where nothing else is written but parentheses.
    pub fn bare_name(&self) -> Option<&Name>
        ensures { option_copied result ≡ bare_name self.now }
    {
        match self.ungrouped() {
            Written::Named(name, None, false, None) => Some(name),
            _ => None,
        }
    }
}
