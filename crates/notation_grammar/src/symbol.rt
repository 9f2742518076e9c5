use index_notation::Token;

/// A terminal symbol of a statement's text: a token, the end of the text, or a byte that begins no token.
#[derive(Debug, Drop)]
pub enum Symbol {
    Lexeme(Token),
    End,
    Stray,
}

/// A symbol, and the byte of the text where it begins, from 0. The end begins at the text's length.
#[derive(Debug, Drop)]
pub struct PlacedSymbol {
    pub symbol: Symbol,
    pub at: usize,
}
