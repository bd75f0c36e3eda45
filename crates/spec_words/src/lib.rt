// What a rejection says in words (paper 02, 2.1): definitions and their laws alone. Crate map_words writes the texts.
