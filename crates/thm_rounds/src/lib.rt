// Request 2.13 of paper 02: after how many rounds every holder has the primary's log. This crate holds definitions and theorems only.
