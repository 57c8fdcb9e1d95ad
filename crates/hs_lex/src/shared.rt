use crate::{LexError, Sign, Token, TokenKind};

fn is_shared<T: Send + Sync>() {}

/// Each public type may go to another thread and be read by several.
fn tokens_are_shared() {
    is_shared::<Sign>();
    is_shared::<TokenKind>();
    is_shared::<Token>();
    is_shared::<LexError>();
}
