ghost use Rattle.std.specs.Prelude.{◌≡◌, ◌≢◌, ℕ, List};
ghost use Rattle.java_tokens.specs.declared.error.TokenError.{TokenError};
ghost use Rattle.java_tokens.specs.declared.error.TokenError.TheVariants.{OutOfMemory};
ghost use Rattle.java_tokens.specs.declared.token.Token.{Token};
ghost use Rattle.java_tokens.specs.Tokens.{AreTokens};
ghost use Rattle.java_tokens.specs.Faults.{HasFault};

/// Bytes have one list of tokens at most, one fault at most, and not both.
pub fn one_reading()
    ensures one_list { (bytes : List ℕ) (tokens others : List Token) →
        AreTokens bytes tokens → AreTokens bytes others → tokens ≡ others }
    ensures one_fault { (bytes : List ℕ) (error other : TokenError) →
        error ≢ OutOfMemory → other ≢ OutOfMemory →
        HasFault bytes error → HasFault bytes other → error ≡ other }
    ensures not_both { (bytes : List ℕ) (tokens : List Token) (error : TokenError) →
        error ≢ OutOfMemory → AreTokens bytes tokens → HasFault bytes error → ⊥ }
{}
