use just_parts::Recipe;

/// A recipe, with a group of words for each of its parameters.
#[derive(Drop)]
pub struct Invocation<'run, 'src, 'words> {
    /// The recipe.
    pub recipe: &'run Recipe<'src>,
    /// The texts of each parameter, in the order of the parameters: words, values of options, and an empty text for each use of a
    /// flag or of a parameter with a value of its own.
    pub arguments: Vec<Vec<&'words str>>,
}
