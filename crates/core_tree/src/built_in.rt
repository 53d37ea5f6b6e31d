ghost use Rattle.std.specs.Prelude.{◌≡◌};
ghost use Rattle.core_tree.specs.BuiltIn.{number_of, name_of, parent_of};

/// The number of the first class of the file. The built-in classes have the numbers below it.
pub const FIRST_CLASS: u32 = 18;

/// A class that every program has. Its number is its place here, from 0.
#[derive(Clone, Copy, Debug, PartialEq, Eq, Drop)]
pub enum BuiltIn {
    Object,
    Throwable,
    Exception,
    RuntimeException,
    Error,
    ArithmeticException,
    NullPointerException,
    NegativeArraySizeException,
    FallbackError,
    ClassCastException,
    ArrayStoreException,
    IndexOutOfBoundsException,
    ArrayIndexOutOfBoundsException,
    IllegalArgumentException,
    IllegalStateException,
    UnsupportedOperationException,
    StackOverflowError,
    RequiresError,
}

impl BuiltIn {
    /// The built-in classes by number.
    pub const ALL: [BuiltIn; 18] = [
        BuiltIn::Object,
        BuiltIn::Throwable,
        BuiltIn::Exception,
        BuiltIn::RuntimeException,
        BuiltIn::Error,
        BuiltIn::ArithmeticException,
        BuiltIn::NullPointerException,
        BuiltIn::NegativeArraySizeException,
        BuiltIn::FallbackError,
        BuiltIn::ClassCastException,
        BuiltIn::ArrayStoreException,
        BuiltIn::IndexOutOfBoundsException,
        BuiltIn::ArrayIndexOutOfBoundsException,
        BuiltIn::IllegalArgumentException,
        BuiltIn::IllegalStateException,
        BuiltIn::UnsupportedOperationException,
        BuiltIn::StackOverflowError,
        BuiltIn::RequiresError,
    ];

    /// The number of the class in every program.
    pub fn number(self) -> u32
        ensures { result ≡ number_of self }
    {
        self as u32
    }

    /// The name of the class.
    pub fn name(self) -> &'static str
        ensures { result.now ≡ name_of self }
    {
        match self {
            BuiltIn::Object => "Object",
            BuiltIn::Throwable => "Throwable",
            BuiltIn::Exception => "Exception",
            BuiltIn::RuntimeException => "RuntimeException",
            BuiltIn::Error => "Error",
            BuiltIn::ArithmeticException => "ArithmeticException",
            BuiltIn::NullPointerException => "NullPointerException",
            BuiltIn::NegativeArraySizeException => "NegativeArraySizeException",
            BuiltIn::FallbackError => "FallbackError",
            BuiltIn::ClassCastException => "ClassCastException",
            BuiltIn::ArrayStoreException => "ArrayStoreException",
            BuiltIn::IndexOutOfBoundsException => "IndexOutOfBoundsException",
            BuiltIn::ArrayIndexOutOfBoundsException => "ArrayIndexOutOfBoundsException",
            BuiltIn::IllegalArgumentException => "IllegalArgumentException",
            BuiltIn::IllegalStateException => "IllegalStateException",
            BuiltIn::UnsupportedOperationException => "UnsupportedOperationException",
            BuiltIn::StackOverflowError => "StackOverflowError",
            BuiltIn::RequiresError => "RequiresError",
        }
    }

    /// The superclass; `None` for `Object` alone.
    pub fn parent(self) -> Option<BuiltIn>
        ensures { result ≡ parent_of self }
    {
        match self {
            BuiltIn::Object => None,
            BuiltIn::Throwable => Some(BuiltIn::Object),
            BuiltIn::Exception | BuiltIn::Error => Some(BuiltIn::Throwable),
            BuiltIn::RuntimeException => Some(BuiltIn::Exception),
            BuiltIn::FallbackError | BuiltIn::StackOverflowError | BuiltIn::RequiresError => Some(
                BuiltIn::Error,
            ),
            BuiltIn::ArrayIndexOutOfBoundsException => Some(BuiltIn::IndexOutOfBoundsException),
            _ => Some(BuiltIn::RuntimeException),
        }
    }
}
