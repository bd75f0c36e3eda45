// The load sheet (paper 02, 2.4): its definitions and their laws alone. Crate image_map_sheet counts it from the rows of a map.
