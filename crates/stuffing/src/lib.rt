// What fills a caption unit behind its content: definitions and laws that every kind of caption unit cites. No code.
#![tactic(auto)]
