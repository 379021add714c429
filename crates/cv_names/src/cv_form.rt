//! The fixed forms of CodeView's spelling.
ghost use Rattle.std.specs.Prelude.{◌≡◌};
ghost use Rattle.cv_names.specs.CvGrammar.{form_named, may_stand, is_tuple};

use names::{Word, is_word};

/// A form in which names stand, as `WORD$<..>`.
#[derive(Clone, Copy, Debug, PartialEq, Eq)]
pub(crate) enum Form {
    /// `ref$<X>`
    Ref,
    /// `ref_mut$<X>`
    RefMut,
    /// `ptr_const$<X>`
    Const,
    /// `ptr_mut$<X>`
    Mut,
    /// `slice2$<X>`
    Slice,
    /// `array$<X,n>`
    Array,
    /// `tuple$<X,Y>`
    Tuple,
    /// `dyn$<A,B>`
    Dyn,
    /// `fn$<R,X,Y>`
    Fn,
    /// `assoc$<WORD,X>`
    Bind,
    /// `enum2$<X>`, where X is a path
    Enum,
}

impl Form {
    /// The form that begins with this word.
    pub(crate) fn named(word: &Word) -> Option<Form>
        ensures { result ≡ form_named word.now }
    {
        if is_word(word, b"ref") {
            Some(Form::Ref)
        } else if is_word(word, b"ref_mut") {
            Some(Form::RefMut)
        } else if is_word(word, b"ptr_const") {
            Some(Form::Const)
        } else if is_word(word, b"ptr_mut") {
            Some(Form::Mut)
        } else if is_word(word, b"slice2") {
            Some(Form::Slice)
        } else if is_word(word, b"array") {
            Some(Form::Array)
        } else if is_word(word, b"tuple") {
            Some(Form::Tuple)
        } else if is_word(word, b"dyn") {
            Some(Form::Dyn)
        } else if is_word(word, b"fn") {
            Some(Form::Fn)
        } else if is_word(word, b"assoc") {
            Some(Form::Bind)
        } else if is_word(word, b"enum2") {
            Some(Form::Enum)
        } else {
            None
        }
    }

    /// Whether the form may stand where names may stand in it or not, and among args or not.
    pub(crate) fn may_stand(self, deep: bool, in_arg: bool) -> bool
        ensures { result ≡ may_stand deep in_arg self }
    {
        match self {
            Form::Ref => deep,
            Form::RefMut => deep,
            Form::Const => deep,
            Form::Mut => deep,
            Form::Slice => deep,
            Form::Array => deep,
            Form::Tuple => true,
            Form::Dyn => deep,
            Form::Fn => deep,
            Form::Bind => deep && in_arg,
            Form::Enum => true,
        }
    }

    /// Whether nothing may stand in the form.
    pub(crate) fn is_tuple(self) -> bool
        ensures { result ≡ is_tuple self }
    {
        match self {
            Form::Ref => false,
            Form::RefMut => false,
            Form::Const => false,
            Form::Mut => false,
            Form::Slice => false,
            Form::Array => false,
            Form::Tuple => true,
            Form::Dyn => false,
            Form::Fn => false,
            Form::Bind => false,
            Form::Enum => false,
        }
    }
}
